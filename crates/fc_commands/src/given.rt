// A file's job whose bytes are given in order.
ghost use Rattle.std.specs.Prelude.{◌≡◌, ◌≤◌, ◌++◌, List, [], ℕ, IsPermutation, IsTrue, IsFalse, OnOk, Err, length};
ghost use Rattle.std.specs.Option.{ForSome};
ghost use Rattle.fc_alloc.specs.declared.owner.Owner.{Owner};
ghost use Rattle.fc_device.specs.Calls.{SameForm, StopsAndExitsLeave};
ghost use Rattle.fc_model.specs.Command.{Command};
ghost use Rattle.fc_image.specs.Layout.{sector_bytes};
ghost use Rattle.fc_space.specs.Space.{layout_of};
ghost use Rattle.fc_import.specs.Imports.{HasCauses, IsSameSupply};
ghost use Rattle.fc_import.specs.declared.place.ImportFault.TheVariants as faults;
ghost use Rattle.fc_given.specs.Law.{IsBegun, IsGivenSource};
ghost use Rattle.fc_holdings.specs.Holdings.{IsSameKind, Stands, parts_of};
ghost use Rattle.fc_commands.specs.Answers.{AnswersShort};
ghost use Rattle.fc_commands.specs.Given.{CanWriteHere, GivenKeeps, IsFile, IsFilling, OpensAlikeOf, as_held, fault_of, filled};
ghost use Rattle.fc_commands.specs.Jobs.{HasLaws, IsJobFor, IsJudged};
ghost use Rattle.fc_commands.specs.Promises.{HasChanged, JobLeaves, WritesPlacesOf};
ghost use Rattle.fc_commands.specs.Written.{ChangeLeavesOn, IsChangedOn, IsGivenOn};
ghost use Rattle.fc_commands.specs.declared.given.GivenError.TheVariants as errors;

use crate::course::make_ready;
use crate::laws::jobs;
use crate::maps::is_map;
use crate::stages::Prepared;
use crate::writing::write_change;
use fc_alloc::Owners;
use fc_change::{Job, take_over};
use fc_device::{Disk, DiskFault};
use fc_given::{ImportFault, beforehand, import_source, part_of};
use fc_holdings::{CommandError, Holdings};
use fc_host::Supply;
use fc_names::Name;
use fc_oldmap::reads_back;
use fc_space::Places;
use fc_writing::{Copies, Ready};
use std::alloc::Global;

/// Why a change whose bytes are given isn't made.
#[derive(Clone, Copy)]
pub enum GivenError {
    /// As one whose bytes are held: refused, or no memory, or a fault of the disk.
    Command(CommandError),
    /// The bytes weren't all given.
    Supply,
}

impl From<CommandError> for GivenError {
    ghost from_gives = { λ error answer. answer ≡ errors.Command error };

    fn from(error: CommandError) -> Self
        ensures { result ≡ errors.Command error }
    {
        GivenError::Command(error)
    }
}

impl From<ImportFault> for GivenError {
    ghost from_gives = { λ fault answer. answer ≡ fault_of fault };

    fn from(fault: ImportFault) -> Self
        ensures { result ≡ fault_of fault }
    {
        match fault {
            ImportFault::Disk => GivenError::Command(CommandError::DiskFault),
            ImportFault::Supply => GivenError::Supply,
        }
    }
}

// Writes a change whose new object's bytes are given: first these, into sectors that the map doesn't have, and then the rest. After that
// the map in memory is the one after the change. What `write_change` leaves of those that were given is left.
fn write_given<D: Disk, B: Supply>(
    disk: &mut D,
    places: &mut Places,
    copies: Copies,
    ready: Ready,
    from: &mut B,
) -> Result<(), ImportFault>
    requires attached { IsTrue (D.attached disk.old) }
    requires settled { IsFalse (D.pending disk.old) }
    requires writable { CanWriteHere D.Disk copies (layout_of places.old) ready disk.old }
    requires fresh { B.given from.old ≡ [] }
    requires source { IsGivenSource ready.source }
    ensures all { OnOk result (length (B.given from.new) ≡ B.total from.old) }
    ensures keeps { StopsAndExitsLeave D.Disk disk.old disk.new (ChangeLeavesOn (layout_of places.old) ready (B.given from.new)) }
    ensures done { OnOk result (ForSome (D.bytes disk.old) (λ was. ForSome (D.bytes disk.new) (IsChangedOn (layout_of places.old) (layout_of places.new) ready (B.given from.new) was))) }
    ensures map { OnOk result (IsGivenOn (layout_of places.old) ready (layout_of places.new)) }
    ensures kind { IsSameKind (layout_of places.old) (layout_of places.new) }
    ensures stopped { result ≡ Err faults.Supply
        → StopsAndExitsLeave D.Disk disk.old disk.new (IsBegun (sector_bytes (layout_of places.old)) ready (B.given from.new)) × (places.new ≡ places.old) }
    ensures durable { OnOk result (IsFalse (D.pending disk.new)) }
    ensures form { SameForm D.Disk disk.old disk.new }
    ensures supply { IsSameSupply B.Supply from.old from.new }
    ensures causes { HasCauses D.Disk B.Supply disk.old disk.new from.old from.new result }
{
    beforehand();
    is_map(places);
    let (source, rest) = part_of(ready);
    import_source(disk, places.sector_bytes() as usize, &source, from)?;
    match write_change(disk, places, copies, rest, &[]) {
        Ok(()) => Ok(()),
        Err(DiskFault) => Err(ImportFault::Disk),
    }
}

// Takes out the owner that came after so many, if one came.
fn take_back(owners: &mut Owners, count: usize)
    ensures { (was more : List Owner) → length was ≡ count → owners.old ≡ was ++ more → length more ≤ 1 → IsPermutation was owners.new }
{
    let list = owners.list();
    if count < list.len() {
        let node = list[count].node;
        owners.remove(node);
    }
}

/// Does what a command that saves a file is about, as `change` does, with bytes that are given in order: no memory of their number is
/// taken. None of them is given yet. They are asked for once the change is ready; each then goes into its sector, which the map doesn't
/// have yet, and the rest is written when all are there.
///
/// Refused for want of space, with the first reason that applies, and then nothing has changed and none was given; `NoMemory` leaves
/// all as it was, too. At any moment, a crash or an error, the disk is as `change` may leave it for the bytes that were given and zeros in
/// place of the others. `Supply` only if the supply's count of faults rose: then only sectors of the new file's place have other bytes,
/// in which nothing lies, the image opens as the very same, and the holdings stand for it. After `DiskFault`, which comes only if the
/// disk's count of faults rose, they stand for nothing.
pub fn change_from<D: Disk, B: Supply>(
    alloc: Global,
    disk: &mut D,
    holdings: &mut Holdings,
    job: &Job,
    name: &Name,
    from: &mut B,
) -> Result<(), GivenError>
    requires attached { IsTrue (D.attached disk.old) }
    requires settled { IsFalse (D.pending disk.old) }
    requires stands { Stands D.Disk holdings.old disk.old }
    requires fresh { B.given from.old ≡ [] }
    requires file { IsFile job.now }
    requires judged { (bytes : List ℕ) → length bytes ≡ B.total from.old → IsJudged (parts_of holdings.old) job.now name.now bytes }
    requires covered { HasLaws (parts_of holdings.old) job.now name.now }
    ensures refused { (c : Command) (bytes : List ℕ) → length bytes ≡ B.total from.old → IsJobFor c (parts_of holdings.old) job.now name.now bytes → AnswersShort c (parts_of holdings.old) (as_held result) }
    ensures given { OnOk result (length (B.given from.new) ≡ B.total from.old) }
    ensures changed { OnOk result ((c : Command) → IsJobFor c (parts_of holdings.old) job.now name.now (B.given from.new)
        → HasChanged D.Disk c (parts_of holdings.old) (parts_of holdings.new) disk.old disk.new) }
    ensures places { (c : Command) → IsJobFor c (parts_of holdings.old) job.now name.now (filled (B.total from.old) (B.given from.new))
        → StopsAndExitsLeave D.Disk disk.old disk.new (WritesPlacesOf c (parts_of holdings.old)) }
    ensures leaves { StopsAndExitsLeave D.Disk disk.old disk.new (JobLeaves (parts_of holdings.old) job.now name.now) }
    ensures stopped { result ≡ Err errors.Supply → StopsAndExitsLeave D.Disk disk.old disk.new (IsFilling (parts_of holdings.old) job.now name.now) }
    ensures alike { result ≡ Err errors.Supply → StopsAndExitsLeave D.Disk disk.old disk.new (OpensAlikeOf (parts_of holdings.old)) }
    ensures keeps { GivenKeeps D.Disk B.Supply disk.old disk.new from.old from.new holdings.old holdings.new result }
{
    jobs();
    reads_back();
    is_map(&holdings.places);
    holdings.places.places_suffice();
    let owners = holdings.owners.list().len();
    let Prepared { change, ready } = make_ready(alloc, holdings, job, name)?;
    match write_given(disk, &mut holdings.places, holdings.copies, ready, from) {
        Ok(()) => {
            holdings.copies = Copies::Equal;
            take_over(
                &mut holdings.tree,
                &mut holdings.owners,
                &holdings.places,
                change,
            );
            Ok(())
        }
        Err(fault) => {
            take_back(&mut holdings.owners, owners);
            Err(GivenError::from(fault))
        }
    }
}
