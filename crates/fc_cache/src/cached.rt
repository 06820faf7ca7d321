// The cached disk itself.
ghost use Rattle.std.specs.Prelude.{◌≡◌, ◌⊎◌, ◌≤◌, ◌<◌, ◌+◌, ◌*◌, ◌^◌, ◌++◌, true, false, None, Ok, [], ◌∷◌, length, replicate, option_map, is_some, IsTrue, IsFalse, IsOk, OnOk, OnErr, IfOk};
ghost use Rattle.std.specs.List.{range_with_len};
ghost use Rattle.std.specs.Option.{ForSome};
ghost use Rattle.fc_device.specs.Faults.{HasCause};
ghost use Rattle.fc_device.specs.Form.{KeepsForm, KeepsImage, IsFresh, IsUntouched};
ghost use Rattle.fc_device.specs.Sectors.{row_at, sector_at, with_row, with_sector};
ghost use Rattle.fc_device.specs.Stops.{HasRowPart, LeavesOnly, RowOldOrNew, SectorOldOrNew, StillLeaves};
ghost use Rattle.fc_cache.specs.Sectors.{entries_of, entries_without, is_kept, AreSectors, AreWhole, KeepsRead, KeepsWritten};

use crate::kept::Kept;
use fc_device::{Disk, Extent, Failed};
use std::alloc::Global;

/// A disk that keeps at most 64 of the sectors of the disk below, and writes through to it. They are those that were used last of
/// the sectors that were read or written by themselves; of a row of several sectors it keeps none. What it means is what that disk
/// means: whether it is attached, its bytes, what a crash may leave, and so on.
#[derive(Drop)]
pub struct CachedDisk<D: Disk> {
    inner: D,
    kept: Kept,
    ghost whole: { AreWhole (D.sector_size inner) kept },
    ghost right: { ForSome (D.bytes inner) (λ image. AreSectors (D.sector_size inner) image kept) },
}

impl<D: Disk> CachedDisk<D> {
    /// A disk over `inner` that keeps nothing yet. If no memory is found for the cache, it never keeps anything.
    pub fn new(alloc: Global, inner: D) -> CachedDisk<D>
        ensures inner { result.inner ≡ inner }
        ensures empty { entries_of result.kept ≡ [] }
    {
        CachedDisk {
            inner,
            kept: Kept::new(alloc),
        }
    }

    /// The disk below, for reading.
    pub fn inner(&self) -> &D
        ensures { result.now ≡ self.now.inner }
    {
        &self.inner
    }
}

impl<D: Disk> Disk for CachedDisk<D> {
    ghost use Rattle.fc_cache.specs.Cached.{attached_of, gives_of, asked_of, bytes_of, left_of, tells_stops_of, moment_of, pending_of, sectors_of, size_of, length_of, reads_of, faults_of};

    ghost attached = { λ s. D.attached s.inner };

    ghost gives = { λ s. D.gives s.inner };

    ghost asked = { λ s. D.asked s.inner };

    ghost bytes = { λ s. D.bytes s.inner };

    ghost left_since = { λ s. D.left_since s.inner };

    ghost tells_stops = { λ s. D.tells_stops s.inner };

    ghost moment = { λ s. D.moment s.inner };

    ghost pending = { λ s. D.pending s.inner };

    ghost sectors = { λ s. D.sectors s.inner };

    ghost sector_size = { λ s. D.sector_size s.inner };

    ghost image_length = { λ s. D.image_length s.inner };

    ghost read_calls = { λ s. D.read_calls s.inner };

    ghost faults = { λ s. D.faults s.inner };

    fn attach(&mut self, name: &str, blank: Option<u64>) -> Result<bool, Failed>
        ensures asked { asked_of self.new ≡ asked_of self.old ++ (name.now, blank) ∷ [] }
        ensures given { IfOk result (λ given. ForSome (gives_of self.old) (λ rule. given ≡ rule name.now blank)) }
        ensures fresh { result ≡ Ok true → IsFresh attached_of pending_of size_of self.new }
        ensures blank_length { result ≡ Ok true → ForSome blank (λ n. length_of self.new ≡ n) }
        ensures blank_bytes { result ≡ Ok true → ForSome blank (λ n. bytes_of self.new ≡ option_map (λ _. replicate n 0) (bytes_of self.old)) }
        ensures not_given { result ≡ Ok false → IsUntouched attached_of pending_of tells_stops_of gives_of bytes_of sectors_of size_of length_of moment_of faults_of self.old self.new }
        ensures bytes { blank ≡ None → bytes_of self.new ≡ bytes_of self.old }
        ensures stops { LeavesOnly moment_of left_of self.old self.new
            (λ image. (blank ≡ None) ⊎ (result ≡ Ok false) → left_of self.old (moment_of self.old) image) }
        ensures still { result ≡ Ok false → StillLeaves moment_of left_of self.old self.new }
        ensures told { is_some (bytes_of self.new) ≡ is_some (bytes_of self.old) }
        ensures tells_stops { tells_stops_of self.new ≡ tells_stops_of self.old }
        ensures read_calls { reads_of self.new ≡ reads_of self.old }
        ensures cause { HasCause (faults_of self.old) (faults_of self.new) result }

        // Nothing is kept of what was there before.
        ensures empty { entries_of self.new.kept ≡ [] }
    {
        self.kept.clear();
        self.inner.attach(name, blank)
    }

    fn shape(&mut self, log2: u8)
        requires attached { IsTrue (attached_of self.old) }
        requires settled { IsFalse (pending_of self.old) }
        requires least { 8 ≤ log2 }
        requires most { log2 ≤ 10 }
        ensures size { size_of self.new ≡ 2 ^ log2 }
        ensures image { KeepsImage attached_of tells_stops_of gives_of asked_of length_of self.old self.new }
        ensures bytes { bytes_of self.new ≡ bytes_of self.old }
        ensures pending { pending_of self.new ≡ pending_of self.old }
        ensures stops { LeavesOnly moment_of left_of self.old self.new (left_of self.old (moment_of self.old)) }
        ensures still { StillLeaves moment_of left_of self.old self.new }
        ensures read_calls { reads_of self.new ≡ reads_of self.old }
        ensures faults { faults_of self.old ≤ faults_of self.new }

        // Nothing is kept of the other size.
        ensures empty { entries_of self.new.kept ≡ [] }
    {
        self.kept.clear();
        self.inner.shape(log2);
    }

    fn sectors(&self) -> u64 {
        self.inner.sectors()
    }

    fn length(&self) -> u64 {
        self.inner.length()
    }

    fn read(&mut self, n: u64, into: &mut [u8]) -> Result<(), Failed>
        requires attached { IsTrue (attached_of self.old) }
        requires on_disk { n < sectors_of self.old }
        requires whole { length into.old ≡ size_of self.old }
        ensures filled { OnOk result (ForSome (bytes_of self.old) (λ image. into.new ≡ sector_at (size_of self.old) image n)) }
        ensures form { KeepsForm attached_of tells_stops_of gives_of asked_of sectors_of size_of length_of self.old self.new }
        ensures bytes { bytes_of self.new ≡ bytes_of self.old }
        ensures pending { pending_of self.new ≡ pending_of self.old }
        ensures stops { LeavesOnly moment_of left_of self.old self.new (left_of self.old (moment_of self.old)) }
        ensures still { StillLeaves moment_of left_of self.old self.new }
        ensures read_calls { (reads_of self.old ≤ reads_of self.new) × (reads_of self.new ≤ reads_of self.old + 1) }
        ensures cause { HasCause (faults_of self.old) (faults_of self.new) result }

        // A sector that is kept is read, and nothing happens to the disk below: no call of it is made.
        ensures hit { IsTrue (is_kept self.old.kept n) → IsOk result }
        ensures no_call { IsTrue (is_kept self.old.kept n) → self.new.inner ≡ self.old.inner }

        // No sector is forgotten but that one that was used longest ago, if there are too many.
        ensures keeps { KeepsRead n into.new self.old.kept self.new.kept result }
    {
        if self.kept.get(n, into) {
            return Ok(());
        }
        self.inner.read(n, into)?;
        self.kept.put(n, into);
        Ok(())
    }

    fn read_row(&mut self, row: Extent, into: &mut [u8]) -> Result<(), Failed>
        requires attached { IsTrue (attached_of self.old) }
        requires on_disk { row.first + row.sectors ≤ sectors_of self.old }
        requires whole { length into.old ≡ row.sectors * size_of self.old }
        ensures filled { OnOk result (ForSome (bytes_of self.old) (λ image. into.new ≡ row_at (size_of self.old) image row.first row.sectors)) }
        ensures form { KeepsForm attached_of tells_stops_of gives_of asked_of sectors_of size_of length_of self.old self.new }
        ensures bytes { bytes_of self.new ≡ bytes_of self.old }
        ensures pending { pending_of self.new ≡ pending_of self.old }
        ensures stops { LeavesOnly moment_of left_of self.old self.new (left_of self.old (moment_of self.old)) }
        ensures still { StillLeaves moment_of left_of self.old self.new }
        ensures read_calls { (reads_of self.old ≤ reads_of self.new) × (reads_of self.new ≤ reads_of self.old + row.sectors) }
        ensures cause { HasCause (faults_of self.old) (faults_of self.new) result }

        // A row of one sector is read as that sector. Of longer rows nothing is kept, since they would drive out the sectors that
        // were used last.
        ensures hit { row.sectors ≡ 1 → IsTrue (is_kept self.old.kept row.first) → IsOk result }
        ensures no_call { row.sectors ≡ 1 → IsTrue (is_kept self.old.kept row.first) → self.new.inner ≡ self.old.inner }
        ensures keeps { row.sectors ≡ 1 → KeepsRead row.first into.new self.old.kept self.new.kept result }
        ensures kept { (row.sectors ≡ 1 → ⊥) → self.new.kept ≡ self.old.kept }
    {
        if row.sectors == 1 {
            return self.read(row.first, into);
        }
        self.inner.read_row(row, into)
    }

    fn write(&mut self, n: u64, from: &[u8]) -> Result<(), Failed>
        requires attached { IsTrue (attached_of self.old) }
        requires on_disk { n < sectors_of self.old }
        requires whole { length from.now ≡ size_of self.old }
        ensures written { OnOk result (bytes_of self.new ≡ option_map (λ image. with_sector (size_of self.old) image n from.now) (bytes_of self.old)) }
        ensures old_or_new { (bytes_of self.new ≡ bytes_of self.old) ⊎ (bytes_of self.new ≡ option_map (λ image. with_sector (size_of self.old) image n from.now) (bytes_of self.old)) }
        ensures form { KeepsForm attached_of tells_stops_of gives_of asked_of sectors_of size_of length_of self.old self.new }
        ensures stops { LeavesOnly moment_of left_of self.old self.new
            (SectorOldOrNew (size_of self.old) n from.now (left_of self.old (moment_of self.old))) }
        ensures still { StillLeaves moment_of left_of self.old self.new }
        ensures read_calls { reads_of self.new ≡ reads_of self.old }
        ensures cause { HasCause (faults_of self.old) (faults_of self.new) result }

        // If it fails, the sector isn't kept.
        ensures dropped { OnErr result (is_kept self.new.kept n ≡ false) }
        ensures keeps { KeepsWritten n from.now self.old.kept self.new.kept result }
    {
        self.kept.remove(n);
        self.inner.write(n, from)?;
        self.kept.put(n, from);
        Ok(())
    }

    fn write_row(&mut self, row: Extent, from: &[u8]) -> Result<(), Failed>
        requires attached { IsTrue (attached_of self.old) }
        requires on_disk { row.first + row.sectors ≤ sectors_of self.old }
        requires whole { length from.now ≡ row.sectors * size_of self.old }
        ensures written { OnOk result (bytes_of self.new ≡ option_map (λ image. with_row (size_of self.old) image row.first from.now) (bytes_of self.old)) }
        ensures old_or_new { HasRowPart (size_of self.old) row.first from.now (bytes_of self.old) (bytes_of self.new) }
        ensures form { KeepsForm attached_of tells_stops_of gives_of asked_of sectors_of size_of length_of self.old self.new }
        ensures stops { LeavesOnly moment_of left_of self.old self.new
            (RowOldOrNew (size_of self.old) row.first from.now (left_of self.old (moment_of self.old))) }
        ensures still { StillLeaves moment_of left_of self.old self.new }
        ensures read_calls { reads_of self.new ≡ reads_of self.old }
        ensures cause { HasCause (faults_of self.old) (faults_of self.new) result }

        // A row of one sector is written as that sector. Of longer rows nothing is kept, since they would drive out the sectors that
        // were used last.
        ensures dropped { row.sectors ≡ 1 → OnErr result (is_kept self.new.kept row.first ≡ false) }
        ensures keeps { row.sectors ≡ 1 → KeepsWritten row.first from.now self.old.kept self.new.kept result }
        ensures kept { (row.sectors ≡ 1 → ⊥) → entries_of self.new.kept ≡ entries_without (range_with_len row.first row.sectors) (entries_of self.old.kept) }
    {
        if row.sectors == 1 {
            return self.write(row.first, from);
        }
        self.kept.remove_row(row);
        self.inner.write_row(row, from)
    }

    fn sync(&mut self) -> Result<(), Failed>
        requires { IsTrue (attached_of self.old) }
        ensures durable { OnOk result (IsFalse (pending_of self.new)) }
        ensures form { KeepsForm attached_of tells_stops_of gives_of asked_of sectors_of size_of length_of self.old self.new }
        ensures bytes { bytes_of self.new ≡ bytes_of self.old }
        ensures stops { LeavesOnly moment_of left_of self.old self.new (left_of self.old (moment_of self.old)) }
        ensures still { OnErr result (StillLeaves moment_of left_of self.old self.new) }
        ensures read_calls { reads_of self.new ≡ reads_of self.old }
        ensures cause { HasCause (faults_of self.old) (faults_of self.new) result }

        // What is kept stays.
        ensures kept { self.new.kept ≡ self.old.kept }
    {
        self.inner.sync()
    }

    ghost sector_sizes = { λ s. D.sector_sizes s.inner };

    ghost whole_sectors = { λ s. D.whole_sectors s.inner };

    ghost length_fits = { λ s. D.length_fits s.inner };

    ghost faults_fit = { λ s. D.faults_fit s.inner };

    ghost told_length = { λ s. D.told_length s.inner };

    ghost earlier = { λ s. D.earlier s.inner };

    ghost leaves_what_is_read = { λ s. D.leaves_what_is_read s.inner };

    ghost settled = { λ s. D.settled s.inner };
}
