// A disc's map, and the place of the bytes at an address.

ghost use Rattle.std.specs.Prelude.{◌≡◌, ◌≤◌, ◌<◌, ◌^◌, None, Some, IfOk, IsErrOf, IsSome};
ghost use Rattle.fc_image.specs.Layout.{dir_form, disc_sectors, sector_bytes, sectors_at};
ghost use Rattle.fc_objects.specs.Extents.{sectors_in};
ghost use Rattle.fc_space.specs.Space.{HaveSectors, PlacesSuffice, Suffice, layout_of, nth_sector};

use crate::PlaceError;
use crate::new::{low_start, new_place, sector_of_id};
use crate::old::old_place;
use fc_device::Extent;
use fc_names::NameForm;
use fc_newmap::NewMap;
use fc_oldmap::OldMap;
use std::alloc::Global;

/// The map of a disc: an old one, or a new one.
#[derive(Drop)]
pub enum Space {
    OldMapped(OldMap),
    NewMapped(NewMap),
}

impl Space {
    /// The bytes of a sector.
    pub fn sector_bytes(&self) -> u64
        ensures { result ≡ sector_bytes (layout_of self.now) }
    {
        match self {
            Space::OldMapped(map) => 256 * u64::from(map.sector_units()),
            Space::NewMapped(map) => u64::from(map.geometry().sector),
        }
    }

    /// The sectors of the disc. On a new map they are those that its bits stand for.
    pub fn disc_sectors(&self) -> u64
        ensures value { result ≡ disc_sectors (layout_of self.now) }
        ensures few { result ≤ 2 ^ 40 }
    {
        match self {
            Space::OldMapped(map) => u64::from(map.disc_units() / map.sector_units()),
            Space::NewMapped(map) => {
                let g = map.geometry();
                g.disc_bits * g.bit_bytes / u64::from(g.sector)
            }
        }
    }

    /// The form of the disc's directories.
    pub fn dir_form(&self) -> NameForm
        ensures { result ≡ dir_form (layout_of self.now) }
    {
        match self {
            Space::OldMapped(map) if map.sector_units() == 4 => NameForm::Ten,
            Space::OldMapped(_) => NameForm::Seven,
            Space::NewMapped(map) if map.geometry().version == 0 => NameForm::Ten,
            Space::NewMapped(_) => NameForm::Long,
        }
    }

    /// The whole sectors that the first `bytes` bytes from an address take, in their order; none at all for no bytes,
    /// whatever the address. They lie on the disc, and no extent is empty. The address is an indirect disc address on a new
    /// map, and counts units of 256 bytes on an old one. `Outside` exactly if the bytes pass the object's end or the disc's,
    /// if no object can have the address's identifier, and, on an old map, if the address is no sector boundary.
    pub fn place_of(
        &self,
        alloc: Global,
        address: u32,
        bytes: u64,
    ) -> Result<Vec<Extent>, PlaceError>
        ensures place { IfOk result (λ place. sectors_at (layout_of self.now) address bytes ≡ Some (sectors_in place.items)) }
        ensures suffice { IfOk result (λ place. Suffice (layout_of self.now) bytes (sectors_in place.items)) }
        ensures each { IfOk result (λ place. HaveSectors place.items) }
        ensures outside { IsErrOf result PlaceError.Outside → sectors_at (layout_of self.now) address bytes ≡ None }
    {
        if bytes == 0 {
            return Ok(Vec::new(alloc));
        }
        match self {
            Space::OldMapped(map) => old_place(alloc, map, address, bytes),
            Space::NewMapped(map) => new_place(alloc, map, address, bytes),
        }
    }

    /// A law: bytes that have a place lie on the disc.
    pub fn places_suffice(&self)
        ensures { PlacesSuffice (layout_of self.now) }
    {
        match self {
            Space::OldMapped(map) => {
                let _ = map.sector_units();
            }
            Space::NewMapped(map) => {
                let _ = map.geometry();
            }
        }
    }

    /// The disc's number of a sector of the bytes at an address, which have a place, as `place_of` has it: sector `n` of
    /// them, from 0, by walking over the runs before it. Takes no memory.
    pub fn sector_of(&self, address: u32, bytes: u64, n: u64) -> u64
        requires { IsSome (nth_sector (layout_of self.now) address bytes n) }
        ensures sector { nth_sector (layout_of self.now) address bytes n ≡ Some result }
        ensures on_disc { result < disc_sectors (layout_of self.now) }
    {
        match self {
            Space::OldMapped(map) => u64::from(address / map.sector_units()) + n,
            Space::NewMapped(map) => {
                let skip = low_start(map, address % 256);
                sector_of_id(map, address / 256, skip + n).unwrap()
            }
        }
    }
}
