// A disk that is made a fresh volume.
ghost use Rattle.std.specs.Prelude.{◌≡◌, ◌++◌, ◌≤◌, ◌<◌, ◌-◌, ◌*◌, ℕ, Err, option_map, length, IsTrue, IsFalse, OnOk};
ghost use Rattle.fc_device.specs.Calls.{FailsByFault, SameForm, SameImage, StopsAndExitsLeave};
ghost use Rattle.fc_device.specs.Faults.{Rose};
ghost use Rattle.fc_format.specs.Fresh.{boot_block, f_zone0, f_zone1, f_zone3, format_size, fresh_image, zeros};
ghost use Rattle.fc_format.specs.Zones.{IsRecordOfF};
ghost use Rattle.fc_format.specs.Passes.{KeepsBehind, LengthensFront, SameBehind, disc_of};
ghost use Rattle.fc_format.specs.declared.volume.FormatError.TheVariants as errors;

use crate::Format;
use crate::parts::{
    Record, Zone, boot_block, e_map, e_plus_map, f_plus_zone2, f_record, f_zone0, f_zone1, f_zone2,
    f_zone3, old_map, with_big_root,
};
use crate::passes::{Part, write_parts};
use crate::roots::{big_root, new_root, old_root};
use fc_device::{Disk, DiskFault};

/// Why no volume was made.
#[derive(Clone, Copy, Debug, PartialEq, Eq)]
pub enum FormatError {
    /// The disk has `have` bytes, fewer than the format's `need`.
    TooSmall { need: u64, have: u64 },
    /// A call of the disk failed.
    DiskFault,
}

impl From<DiskFault> for FormatError {
    ghost from_gives = { λ _ e. e ≡ errors.DiskFault };

    fn from(_: DiskFault) -> Self
        ensures { result ≡ errors.DiskFault }
    {
        FormatError::DiskFault
    }
}

// Writes a disc of one zone: both copies of the map, and the root.
fn write_one_zone<D: Disk>(disk: &mut D, map: &Zone, root: &[u8; 2048]) -> Result<(), DiskFault>
    requires attached { IsTrue (D.attached disk.old) }
    requires size { D.sector_size disk.old ≡ 256 }
    requires on_disk { 3200 ≤ D.sectors disk.old }
    ensures front { OnOk result (LengthensFront D.Disk disk.old disk.new 0 (map.now ++ map.now ++ root.now ++ zeros (819200 - 4096))) }
    ensures keeps { KeepsBehind D.Disk disk.old disk.new 819200 }
    ensures form { SameForm D.Disk disk.old disk.new }
    ensures cause { FailsByFault D.Disk disk.old disk.new result }
{
    write_parts(disk, &[(0, map), (4, map), (8, root)], 3200)
}

// Writes a disc of four zones: the boot block with the record, both copies of the map, and the root. Zones 1 and 3 are
// one hole each.
fn write_four_zones<D: Disk>(
    disk: &mut D,
    of: &Record,
    zone2: &Zone,
    root: &[u8; 2048],
) -> Result<(), DiskFault>
    requires attached { IsTrue (D.attached disk.old) }
    requires size { D.sector_size disk.old ≡ 256 }
    requires on_disk { 6400 ≤ D.sectors disk.old }
    requires of { IsRecordOfF of.now }
    ensures front { let map = f_zone0 of.now ++ f_zone1 ++ zone2.now ++ f_zone3 in
        OnOk result (LengthensFront D.Disk disk.old disk.new 0 (zeros 0xC00 ++ boot_block of.now ++ zeros (0xC6800 - 0xE00) ++ map ++ map ++ root.now ++ zeros (1638400 - 823296))) }
    ensures keeps { KeepsBehind D.Disk disk.old disk.new 1638400 }
    ensures form { SameForm D.Disk disk.old disk.new }
    ensures cause { FailsByFault D.Disk disk.old disk.new result }
{
    let boot = boot_block(of);
    let zone0 = f_zone0(of);
    let zone1 = f_zone1();
    let zone3 = f_zone3();
    let parts: [Part; 10] = [
        (12, &boot),
        (3176, &zone0),
        (3180, &zone1),
        (3184, zone2),
        (3188, &zone3),
        (3192, &zone0),
        (3196, &zone1),
        (3200, zone2),
        (3204, &zone3),
        (3208, root),
    ];
    write_parts(disk, &parts, 6400)
}

// Writes the disc of a format.
fn write_disc<D: Disk>(disk: &mut D, f: Format) -> Result<(), DiskFault>
    requires attached { IsTrue (D.attached disk.old) }
    requires size { D.sector_size disk.old ≡ 256 }
    requires on_disk { format_size f ≤ 256 * D.sectors disk.old }
    ensures front { OnOk result (LengthensFront D.Disk disk.old disk.new 0 (disc_of f)) }
    ensures keeps { KeepsBehind D.Disk disk.old disk.new (format_size f) }
    ensures form { SameForm D.Disk disk.old disk.new }
    ensures cause { FailsByFault D.Disk disk.old disk.new result }
{
    match f {
        Format::E => write_one_zone(disk, &e_map(), &new_root(0x203)),
        Format::EPlus => write_one_zone(disk, &e_plus_map(), &big_root()),
        Format::F => write_four_zones(disk, &f_record(), &f_zone2(), &new_root(0x209)),
        Format::FPlus => {
            let of = with_big_root(&f_record());
            write_four_zones(disk, &of, &f_plus_zone2(), &big_root())
        }
        Format::D => {
            let map = old_map(3200, 12);
            write_parts(disk, &[(0, &map), (4, &new_root(4))], 3200)
        }
        Format::L => {
            let map = old_map(2560, 7);
            write_parts(disk, &[(0, &map), (2, &old_root(2))], 2560)
        }
    }
}

// Writes the disc of a format, and syncs.
fn write_volume<D: Disk>(disk: &mut D, f: Format) -> Result<(), DiskFault>
    requires attached { IsTrue (D.attached disk.old) }
    requires size { D.sector_size disk.old ≡ 256 }
    requires on_disk { format_size f ≤ 256 * D.sectors disk.old }
    ensures fresh { OnOk result (D.bytes disk.new ≡ option_map (λ image. fresh_image f image) (D.bytes disk.old)) }
    ensures durable { OnOk result (IsFalse (D.pending disk.new)) }
    ensures keeps { KeepsBehind D.Disk disk.old disk.new (format_size f) }
    ensures form { SameForm D.Disk disk.old disk.new }
    ensures cause { FailsByFault D.Disk disk.old disk.new result }
{
    write_disc(disk, f)?;
    disk.sync()?;
    Ok(())
}

/// Makes the disk a fresh volume. The disk is attached, with sectors of any size, and nothing is pending.
///
/// Then the image is the fresh one of the format, with the bytes that stood after the disc's end; the disk has sectors
/// of 256 bytes, and nothing is pending. What stands after the disc's end stays in any case, at each crash of the machine
/// too.
///
/// The answer is `TooSmall` exactly if the image is shorter than the disc, and then nothing has changed. It is
/// `DiskFault` only if the disk's count of faults rose. No memory is taken.
pub fn make<D: Disk>(disk: &mut D, f: Format) -> Result<(), FormatError>
    requires attached { IsTrue (D.attached disk.old) }
    requires settled { IsFalse (D.pending disk.old) }
    ensures fresh { OnOk result (D.bytes disk.new ≡ option_map (λ image. fresh_image f image) (D.bytes disk.old)) }
    ensures size { OnOk result (D.sector_size disk.new ≡ 256) }
    ensures durable { OnOk result (IsFalse (D.pending disk.new)) }
    ensures small { D.image_length disk.old < format_size f → (result ≡ Err (FormatError.TooSmall (format_size f) (D.image_length disk.old))) × (disk.new ≡ disk.old) }
    ensures large { (need have : ℕ) → result ≡ Err (FormatError.TooSmall need have) → D.image_length disk.old < format_size f }
    ensures keeps { StopsAndExitsLeave D.Disk disk.old disk.new (SameBehind (format_size f)) }
    ensures image { SameImage D.Disk disk.old disk.new }
    ensures later { D.faults disk.old ≤ D.faults disk.new }
    ensures cause { result ≡ Err FormatError.DiskFault → Rose (D.faults disk.old) (D.faults disk.new) }
{
    let need = f.size();
    let have = disk.length();
    if have < need {
        return Err(FormatError::TooSmall { need, have });
    }
    disk.shape(8);
    Ok(write_volume(disk, f)?)
}
