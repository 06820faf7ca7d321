// The sectors that are kept, by their numbers.
ghost use Rattle.std.specs.Prelude.{◌≡◌, ◌⊎◌, ◌+◌, ◌<◌, ◌^◌, false, ℕ, Some, [], length, nat_eq, Vec, IsTrue};
ghost use Rattle.std.specs.Global.{Global};
ghost use Rattle.std.specs.List.{range_with_len};
ghost use Rattle.std.specs.Map.{remove_entry};
ghost use Rattle.std.specs.Option.{ForSome};
ghost use Rattle.lru.specs.LruCache.{promoted};

use fc_device::Extent;
use lru::LruCache;
use std::alloc::Global;
use std::num::NonZeroUsize;

/// How many sectors are kept at most.
const MOST_SECTORS: usize = 64;

/// The sectors that were used last, each under its number. If no memory was found for it there is no cache.
#[derive(Drop)]
pub struct Kept {
    cache: Option<LruCache<u64, Vec<u8>>>,
    alloc: Global,
    ghost most: { ForSome cache (λ c. c.cap ≡ 64) },
}

impl Kept {
    ghost use Rattle.fc_cache.specs.Sectors.{entries_of, entries_without, is_kept, AreWhole, Holds, HoldsNone, IsPut, KeepsNoMore};

    /// Keeps nothing yet.
    pub fn new(alloc: Global) -> Kept
        ensures { entries_of result ≡ [] }
    {
        let cache = match NonZeroUsize::new(MOST_SECTORS) {
            None => None,
            Some(most) => LruCache::new(alloc, most).ok(),
        };
        Kept { cache, alloc }
    }

    /// Fills `into` with sector n, if it is kept, and answers whether it is. It is then the one that was used last.
    pub fn get(&mut self, n: u64, into: &mut [u8]) -> bool
        requires whole { AreWhole (length into.old) self.old }
        ensures kept { result ≡ is_kept self.old n }
        ensures filled { IsTrue result → (bytes : Vec ℕ Global) × Holds self.old n bytes × (into.new ≡ bytes.items) }
        ensures order { entries_of self.new ≡ promoted (nat_eq n) (entries_of self.old) }
        ensures no_more { KeepsNoMore self.old self.new }
    {
        match &mut self.cache {
            None => false,
            Some(cache) => match cache.get(&n) {
                None => false,
                Some(bytes) => {
                    into.copy_from_slice(bytes);
                    true
                }
            },
        }
    }

    /// Keeps these bytes as sector n, if memory is found. The sector that was used longest ago goes if there are too
    /// many.
    pub fn put(&mut self, n: u64, from: &[u8])
        ensures no_more { (m : ℕ) (bytes : Vec ℕ Global) → Holds self.new m bytes → Holds self.old m bytes ⊎ ((m ≡ n) × (bytes.items ≡ from.now)) }
        ensures order { IsPut n from.now (entries_of self.old) (entries_of self.new) }
    {
        if let Some(cache) = &mut self.cache {
            if let Ok(bytes) = from.to_vec(self.alloc) {
                let _ = cache.put(n, bytes);
            }
        }
    }

    /// Drops sector n.
    pub fn remove(&mut self, n: u64)
        ensures gone { is_kept self.new n ≡ false }
        ensures none { (bytes : Vec ℕ Global) → Holds self.new n bytes → ⊥ }
        ensures order { entries_of self.new ≡ remove_entry (nat_eq n) (entries_of self.old) }
        ensures no_more { KeepsNoMore self.old self.new }
    {
        if let Some(cache) = &mut self.cache {
            if cache.len() > 0 {
                cache.pop(&n);
            }
        }
    }

    /// Drops the sectors of a row.
    pub fn remove_row(&mut self, row: Extent)
        requires fits { row.first + row.sectors < 2 ^ 64 }
        ensures none { HoldsNone row.first row.sectors self.new }
        ensures order { entries_of self.new ≡ entries_without (range_with_len row.first row.sectors) (entries_of self.old) }
        ensures no_more { KeepsNoMore self.old self.new }
    {
        for i in 0..row.sectors {
            self.remove(row.first + i);
        }
    }

    /// Drops every sector.
    pub fn clear(&mut self)
        ensures { entries_of self.new ≡ [] }
    {
        if let Some(cache) = &mut self.cache {
            cache.clear();
        }
    }
}
