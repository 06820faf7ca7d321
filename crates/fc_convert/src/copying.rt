// Objects of one volume made on another.
ghost use Rattle.std.specs.Prelude.{◌≡◌, ◌⊎◌, ◌%◌, ◌∷◌, [], List, ℕ, Err, Some, IsSome, false, length, true};
ghost use Rattle.std.specs.List.{All};
ghost use Rattle.fc_device.specs.Calls.{OnlyReads};
ghost use Rattle.fc_device.specs.Faults.{Rose};
ghost use Rattle.fc_names.specs.declared.refusal.Refusal.{Refusal as Refusals};
ghost use Rattle.fc_record.specs.declared.Kind.{Kind};
ghost use Rattle.fc_tree.specs.declared.node.Node.{Node};
ghost use Rattle.fc_model.specs.Command.{Command};
ghost use Rattle.fc_model.specs.Tree.{bytes_of_node, node_at};
ghost use Rattle.fc_image.specs.Layout.{dir_form};
ghost use Rattle.fc_image.specs.effects.Effect.{State, tree_in};
ghost use Rattle.fc_tree.specs.Nodes.{nodes_of};
ghost use Rattle.fc_fit.specs.Commands.{object_commands};
ghost use Rattle.fc_fit.specs.Fit.{is_attrs_right};
ghost use Rattle.fc_fit.specs.Found.{AllLead, node_in};
ghost use Rattle.fc_volume.specs.Answers.{IsRef, ref_bytes};
ghost use Rattle.fc_volume.specs.Volume.{parts_of};
ghost use Rattle.fc_convert.specs.Copying.{CopiesAll, FitsAt, IsFileAt, IsFileNode, KeepsOpen, KeepsTarget, MakesAll, MakesObject, making_commands};
ghost use Rattle.fc_convert.specs.Ends.{command_error, copy_end, read_error};
ghost use Rattle.fc_convert.specs.Opened.{Holds, IsOpen};

use crate::ConvertEnd;
use crate::blocks::{ReadError, read_file};
use fc_device::{Disk, NoMemory};
use fc_dirs::Entry;
use fc_fit::node_at;
use fc_names::{Path, Refusal};
use fc_volume::{CommandError, FileRef, FileWords, ObjectWords, Volume};
use std::alloc::Global;

// Why an object isn't copied.
#[derive(Clone, Copy)]
enum CopyError {
    // The target refuses a command, for this reason.
    Refused(Refusal),
    // A call of the source failed.
    From,
    // A call of the target failed.
    To,
    NoMemory,
}

impl From<ReadError> for CopyError {
    ghost from_gives = { λ error e. e ≡ read_error error };

    fn from(error: ReadError) -> Self
        ensures { result ≡ read_error error }
    {
        match error {
            ReadError::DiskFault => CopyError::From,
            ReadError::NoMemory => CopyError::NoMemory,
        }
    }
}

impl From<CommandError> for CopyError {
    ghost from_gives = { λ error e. e ≡ command_error error };

    fn from(error: CommandError) -> Self
        ensures { result ≡ command_error error }
    {
        match error {
            CommandError::Refused(refusal) => CopyError::Refused(refusal),
            CommandError::NoMemory => CopyError::NoMemory,
            CommandError::DiskFault => CopyError::To,
        }
    }
}

// The file at a path that leads to one.
fn file_at<D: Disk>(source: &Volume, from: &mut D, path: &Path) -> FileRef
    requires source { IsOpen D.Disk true source.now from.old }
    requires there { IsFileNode source.now path.now }
    ensures named { IsRef source.now result }
    ensures len { (node : Node) → node_in (nodes_of source.now.tree) path.now ≡ Some node → result.len ≡ node.entry.len }
    ensures bytes { (kind : Kind) (s : State) → Holds D.Disk kind s source.now from.old → bytes_of_node (node_at (tree_in s) path.now) ≡ ref_bytes s.image source.now result }
    ensures disk { from.new ≡ from.old }
{
    match source.load(from, path) {
        Ok(file) => file,
        Err(_) => unreachable!(),
    }
}

// Makes the file at a path as the source has it, with its bytes in memory.
fn copy_bytes<D: Disk, E: Disk>(
    alloc: Global,
    source: &Volume,
    from: &mut D,
    target: &mut Volume,
    to: &mut E,
    path: &Path,
) -> Result<(), CopyError>
    requires source { IsOpen D.Disk true source.now from.old }
    requires target { IsOpen E.Disk false target.old to.old }
    requires there { IsFileNode source.now path.now }
    ensures made { (bytes : List ℕ) × IsFileAt D.Disk source.now from.old path.now bytes
        × ((node : Node) → node_in (nodes_of source.now.tree) path.now ≡ Some node → MakesAll E.Disk (Command.Save path.now node.entry.load node.entry.exec bytes ∷ []) target.old target.new to.old to.new result) }
    ensures keeps { KeepsTarget E.Disk target.old target.new to.old to.new result }
    ensures reads { OnlyReads D.Disk from.old from.new }
    ensures cause { result ≡ Err CopyError.From → Rose (D.faults from.old) (D.faults from.new) }
{
    let entry = &node_at(source.tree(), path).entry;
    let words = FileWords {
        load: entry.load,
        exec: entry.exec,
        len: entry.len,
    };
    let file = file_at(source, from, path);
    let bytes = read_file(alloc, source, from, &file)?;
    Ok(target.save(alloc, to, path, words, &bytes)?)
}

// Refuses a file that is longer than the target's disc as `save` would, for which no bytes are needed: `create` is refused for the same
// reason. It isn't accepted; if it were, this would answer that memory is short.
fn refuse_file<E: Disk>(
    alloc: Global,
    target: &mut Volume,
    to: &mut E,
    path: &Path,
    words: FileWords,
) -> Result<(), CopyError>
    requires target { IsOpen E.Disk false target.old to.old }
    ensures made { (bytes : List ℕ) → length bytes ≡ words.len → MakesAll E.Disk (Command.Save path.now words.load words.exec bytes ∷ []) target.old target.new to.old to.new result }
    ensures keeps { KeepsTarget E.Disk target.old target.new to.old to.new result }
    ensures cause { result ≡ Err CopyError.From → ⊥ }
{
    target.create(alloc, to, path, words)?;
    Err(CopyError::NoMemory)
}

// Makes the file at a path as the source has it. Only one that may fit is read, so at most 1.6 MB are in memory: no format holds more.
fn copy_file<D: Disk, E: Disk>(
    alloc: Global,
    source: &Volume,
    from: &mut D,
    target: &mut Volume,
    to: &mut E,
    path: &Path,
) -> Result<(), CopyError>
    requires source { IsOpen D.Disk true source.now from.old }
    requires target { IsOpen E.Disk false target.old to.old }
    requires there { IsFileNode source.now path.now }
    ensures made { (bytes : List ℕ) × IsFileAt D.Disk source.now from.old path.now bytes
        × ((node : Node) → node_in (nodes_of source.now.tree) path.now ≡ Some node → MakesAll E.Disk (Command.Save path.now node.entry.load node.entry.exec bytes ∷ []) target.old target.new to.old to.new result) }
    ensures keeps { KeepsTarget E.Disk target.old target.new to.old to.new result }
    ensures reads { OnlyReads D.Disk from.old from.new }
    ensures cause { result ≡ Err CopyError.From → Rose (D.faults from.old) (D.faults from.new) }
{
    let entry = &node_at(source.tree(), path).entry;
    let space = target.space();
    let most = space.disc_sectors().saturating_mul(space.sector_bytes());
    if u64::from(entry.len) <= most {
        return copy_bytes(alloc, source, from, target, to, path);
    }
    // A law, for the proof alone: the source has as many bytes of the file as its entry says.
    source.space().places_suffice();
    let words = FileWords {
        load: entry.load,
        exec: entry.exec,
        len: entry.len,
    };
    // For the proof alone: the file that isn't read.
    file_at(source, from, path);
    refuse_file(alloc, target, to, path, words)
}

// Gives the object at a path the words and the attributes of an entry.
fn set_words<E: Disk>(
    alloc: Global,
    target: &mut Volume,
    to: &mut E,
    path: &Path,
    entry: &Entry,
) -> Result<(), CopyError>
    requires target { IsOpen E.Disk false target.old to.old }
    requires form { is_attrs_right (dir_form (parts_of target.old).layout) entry.now.attrs ≡ true }
    ensures made { MakesAll E.Disk (Command.Set path.now entry.now.load entry.now.exec (entry.now.attrs % 8) ∷ Command.Mark path.now entry.now.attrs ∷ []) target.old target.new to.old to.new result }
    ensures keeps { KeepsTarget E.Disk target.old target.new to.old to.new result }
    ensures cause { result ≡ Err CopyError.From → ⊥ }
{
    let words = ObjectWords {
        load: entry.load,
        exec: entry.exec,
        access: entry.attrs % 8,
    };
    target.set(alloc, to, path, words)?;
    Ok(target.mark(alloc, to, path, entry.attrs)?)
}

// Makes a directory, or the file, at a path of the source.
fn make_object<D: Disk, E: Disk>(
    alloc: Global,
    source: &Volume,
    from: &mut D,
    target: &mut Volume,
    to: &mut E,
    path: &Path,
) -> Result<(), CopyError>
    requires source { IsOpen D.Disk true source.now from.old }
    requires target { IsOpen E.Disk false target.old to.old }
    requires there { IsSome (node_in (nodes_of source.now.tree) path.now) }
    ensures made { MakesObject D.Disk E.Disk making_commands source.now from.old path.now target.old target.new to.old to.new result }
    ensures keeps { KeepsTarget E.Disk target.old target.new to.old to.new result }
    ensures reads { OnlyReads D.Disk from.old from.new }
    ensures cause { result ≡ Err CopyError.From → Rose (D.faults from.old) (D.faults from.new) }
{
    if node_at(source.tree(), path).entry.is_directory() {
        Ok(target.cdir(alloc, to, path)?)
    } else {
        copy_file(alloc, source, from, target, to, path)
    }
}

// Makes the object at a path as the source has it.
fn copy_object<D: Disk, E: Disk>(
    alloc: Global,
    source: &Volume,
    from: &mut D,
    target: &mut Volume,
    to: &mut E,
    path: &Path,
) -> Result<(), CopyError>
    requires source { IsOpen D.Disk true source.now from.old }
    requires target { IsOpen E.Disk false target.old to.old }
    requires there { IsSome (node_in (nodes_of source.now.tree) path.now) }
    requires form { FitsAt (dir_form (parts_of target.old).layout) source.now path.now }
    ensures made { MakesObject D.Disk E.Disk object_commands source.now from.old path.now target.old target.new to.old to.new result }
    ensures keeps { KeepsTarget E.Disk target.old target.new to.old to.new result }
    ensures reads { OnlyReads D.Disk from.old from.new }
    ensures cause { result ≡ Err CopyError.From → Rose (D.faults from.old) (D.faults from.new) }
{
    make_object(alloc, source, from, target, to, path)?;
    set_words(alloc, target, to, path, &node_at(source.tree(), path).entry)
}

// How a conversion ends that stops at the object of this path.
fn end_of(error: CopyError, path: &Path) -> ConvertEnd
    ensures { (result ≡ copy_end error path.now) ⊎ ((result ≡ ConvertEnd.NoMemory) × ((refusal : Refusals) × (error ≡ CopyError.Refused refusal))) }
{
    match error {
        CopyError::Refused(refusal) => match path.clone() {
            Ok(path) => ConvertEnd::NoRoom { path, refusal },
            Err(_) => ConvertEnd::NoMemory,
        },
        CopyError::From => ConvertEnd::FromFault,
        CopyError::To => ConvertEnd::ToFault,
        CopyError::NoMemory => ConvertEnd::NoMemory,
    }
}

/// Makes the objects at these paths in turn, as the source has them.
pub fn copy_objects<D: Disk, E: Disk>(
    alloc: Global,
    source: &Volume,
    from: &mut D,
    target: &mut Volume,
    to: &mut E,
    paths: &[Path],
) -> Result<(), ConvertEnd>
    requires source { IsOpen D.Disk true source.now from.old }
    requires target { IsOpen E.Disk false target.old to.old }
    requires there { AllLead (nodes_of source.now.tree) paths.now }
    requires form { All (FitsAt (dir_form (parts_of target.old).layout) source.now) paths.now }
    ensures copied { CopiesAll D.Disk E.Disk source.now from.old target.old target.new to.old to.new paths.now result }
    ensures keeps { KeepsOpen E.Disk to.old to.new result }
    ensures reads { OnlyReads D.Disk from.old from.new }
    ensures from_fault { result ≡ Err ConvertEnd.FromFault → Rose (D.faults from.old) (D.faults from.new) }
    ensures to_fault { result ≡ Err ConvertEnd.ToFault → Rose (E.faults to.old) (E.faults to.new) }
{
    for path in paths {
        if let Err(error) = copy_object(alloc, source, from, target, to, path) {
            return Err(end_of(error, path));
        }
    }
    Ok(())
}
