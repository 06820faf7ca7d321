// The volume that is converted.
ghost use Rattle.std.specs.Prelude.{◌≡◌, ◌++◌, ◌∷◌, [], None, Ok, IfErr, IfOk, IsFalse, IsTrue, true};
ghost use Rattle.std.specs.Option.{ForSome};
ghost use Rattle.fc_image.specs.Opening.{Opened, open_image};
ghost use Rattle.fc_tree.specs.Parts.{ArePartsOf};
ghost use Rattle.fc_program.specs.Reading.{IsUnwritten};
ghost use Rattle.fc_volume.specs.Volume.{OnlyShapes, parts_of};
ghost use Rattle.fc_convert.specs.Ends.{source_end};
ghost use Rattle.fc_convert.specs.Opened.{EndsMounting, IsOpen, NoSourceFor, OpensSource};

use crate::ConvertEnd;
use fc_device::{Disk, Failed};
use fc_volume::{MountError, Volume};
use std::alloc::Global;

// How a conversion ends whose source isn't mounted.
fn end_of(error: MountError) -> ConvertEnd
    ensures { result ≡ source_end error }
{
    match error {
        MountError::Image(fault) => ConvertEnd::BadImage(fault),
        MountError::DiskFault => ConvertEnd::FromFault,
        MountError::NoMemory => ConvertEnd::NoMemory,
    }
}

// Opens the image that was given, for reading alone.
fn mount_source<D: Disk>(alloc: Global, from: &mut D) -> Result<Volume, ConvertEnd>
    requires attached { IsTrue (D.attached from.old) }
    requires settled { IsFalse (D.pending from.old) }
    requires size { D.sector_size from.old ≡ 256 }
    ensures ready { IfOk result (λ v. IsOpen D.Disk true v from.new) }
    ensures told { IfOk result (λ v. ForSome (D.bytes from.old) (λ image. (view : Opened) × (open_image image ≡ Ok view) × ArePartsOf (parts_of v) view)) }
    ensures ends { IfErr result (EndsMounting D.Disk from.old from.new) }
    ensures shapes { OnlyShapes D.Disk from.old from.new }
{
    match Volume::mount(alloc, from, true) {
        Ok(volume) => Ok(volume),
        Err(error) => Err(end_of(error)),
    }
}

/// Opens the image of a name, for reading alone.
pub fn open_source<D: Disk>(alloc: Global, from: &mut D, name: &str) -> Result<Volume, ConvertEnd>
    ensures asked { D.asked from.new ≡ D.asked from.old ++ (name.now, None) ∷ [] }
    ensures ready { IfOk result (λ v. IsOpen D.Disk true v from.new) }
    ensures told { IfOk result (λ v. OpensSource D.Disk name.now from.old v) }
    ensures ends { IfErr result (NoSourceFor D.Disk name.now from.old from.new) }
    ensures unwritten { IsUnwritten D.Disk from.old from.new }
{
    match from.attach(name, None) {
        Ok(true) => mount_source(alloc, from),
        Ok(false) => Err(ConvertEnd::NoSource),
        Err(Failed) => Err(ConvertEnd::FromFault),
    }
}
