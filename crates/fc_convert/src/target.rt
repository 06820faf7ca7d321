// The volume that is made.
ghost use Rattle.std.specs.Prelude.{◌≡◌, ◌≤◌, IfErr, IfOk, false, true};
ghost use Rattle.std.specs.Option.{ForSome};
ghost use Rattle.fc_device.specs.Form.{IsFresh};
ghost use Rattle.fc_device.specs.Stops.{LeavesOnly};
ghost use Rattle.fc_record.specs.declared.Kind.{Kind};
ghost use Rattle.fc_image.specs.Layout.{dir_form};
ghost use Rattle.fc_image.specs.effects.Effect.{State};
ghost use Rattle.fc_format.specs.Fresh.{format_size, fresh_image, zeros};
ghost use Rattle.fc_fit.specs.Doing.{IsFreshState};
ghost use Rattle.fc_fit.specs.Fit.{form_of};
ghost use Rattle.fc_volume.specs.Volume.{OnlyShapes, parts_of};
ghost use Rattle.fc_convert.specs.Ends.{target_end};
ghost use Rattle.fc_convert.specs.Opened.{EndsOpening, Holds, IsOpen, NoTargetFor, OpensTarget};
ghost use Rattle.fc_convert.specs.Promise.{AsksOnce};
ghost use Rattle.fc_convert.specs.Words.{words_in};

use crate::ConvertEnd;
use crate::words::Asked;
use fc_device::{Disk, DiskFault};
use fc_fit::form_of;
use fc_format::Format;
use fc_image::ImageFault;
use fc_names::NameForm;
use fc_program::make_image;
use fc_volume::{MountError, Volume};
use std::alloc::Global;

// How a conversion ends whose target isn't mounted.
fn end_of(error: MountError) -> ConvertEnd
    ensures { result ≡ target_end error }
{
    match error {
        MountError::Image(fault) => ConvertEnd::BadTarget(fault),
        MountError::DiskFault => ConvertEnd::ToFault,
        MountError::NoMemory => ConvertEnd::NoMemory,
    }
}

// Whether a volume's directories have names of this form.
fn has_form(volume: &Volume, form: NameForm) -> bool
    ensures right { result ≡ true → dir_form (parts_of volume.now).layout ≡ form }
    ensures wrong { result ≡ false → dir_form (parts_of volume.now).layout ≡ form → ⊥ }
{
    match volume.space().dir_form() {
        NameForm::Seven => matches!(form, NameForm::Seven),
        NameForm::Ten => matches!(form, NameForm::Ten),
        NameForm::Long => matches!(form, NameForm::Long),
    }
}

// Opens the fresh volume of a format that was made. A disk that reads as it was written has no other, and no volume of another form.
fn mount_target<E: Disk>(alloc: Global, to: &mut E, format: Format) -> Result<Volume, ConvertEnd>
    requires fresh { IsFresh E.attached E.pending E.sector_size to.old }
    requires made { ForSome (E.bytes to.old) (λ image. image ≡ fresh_image format (zeros (format_size format))) }
    ensures ready { IfOk result (λ v. IsOpen E.Disk false v to.new) }
    ensures form { IfOk result (λ v. dir_form (parts_of v).layout ≡ form_of format) }
    ensures told { IfOk result (λ v. ForSome (E.bytes to.old) (λ image. (kind : Kind) × (s : State) × IsFreshState format kind s × Holds E.Disk kind s v to.new)) }
    ensures ends { IfErr result (EndsOpening E.Disk to.old to.new) }
    ensures shapes { OnlyShapes E.Disk to.old to.new }
{
    // Laws, for the proof alone: a fresh volume is accepted, and one that is accepted opens as its own kind.
    fc_format::opens();
    fc_image::accepted();
    match Volume::mount(alloc, to, false) {
        Ok(volume) if has_form(&volume, form_of(format)) => Ok(volume),
        Ok(_) => Err(ConvertEnd::BadTarget(ImageFault::NoKind)),
        Err(error) => Err(end_of(error)),
    }
}

/// Makes a fresh volume of the format, and opens it.
pub fn open_target<E: Disk>(
    alloc: Global,
    to: &mut E,
    asked: &Asked<'_>,
) -> Result<Volume, ConvertEnd>
    ensures asked { AsksOnce E.Disk (words_in asked.now) to.old to.new }
    ensures ready { IfOk result (λ v. IsOpen E.Disk false v to.new) }
    ensures told { IfOk result (OpensTarget E.Disk (words_in asked.now) to.old to.new) }
    ensures ends { IfErr result (NoTargetFor E.Disk (words_in asked.now) to.old to.new) }
    ensures goes { LeavesOnly E.moment E.left_since to.old to.new (λ image. Unit {0}) }
    ensures later { E.faults to.old ≤ E.faults to.new }
{
    match make_image(to, asked.to, asked.format) {
        Ok(true) => mount_target(alloc, to, asked.format),
        Ok(false) => Err(ConvertEnd::NoTarget),
        Err(DiskFault) => Err(ConvertEnd::ToFault),
    }
}
