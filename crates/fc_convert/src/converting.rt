// A conversion, from its words to its line.
ghost use Rattle.std.specs.Prelude.{◌≡◌, ◌<◌, ◌++◌, ◌∷◌, [], ℕ, IfErr, IfOk, IsFalse, List, None, Ok, Some, length, map, string_bytes, true};
ghost use Rattle.std.specs.Option.{ForSome};
ghost use Rattle.fc_device.specs.Faults.{Rose};
ghost use Rattle.fc_device.specs.Stops.{LeavesOnly};
ghost use Rattle.fc_image.specs.declared.ImageFault.{ImageFault};
ghost use Rattle.fc_image.specs.Opening.{Opened, open_image};
ghost use Rattle.fc_format.specs.Fresh.{format_size};
ghost use Rattle.fc_program.specs.Reading.{IsUnwritten};
ghost use Rattle.fc_tree.specs.Agree.{Agree};
ghost use Rattle.fc_record.specs.declared.Kind.{Kind};
ghost use Rattle.fc_volume.specs.Volume.{parts_of};
ghost use Rattle.fc_convert.specs.Convert.{ConvertWords, convert_words};
ghost use Rattle.fc_convert.specs.Converting.{AreFitting, ConvertsDisks, CopiesVolume, IsUnfit, TellsLine};
ghost use Rattle.fc_convert.specs.Ends.{TellsEnd, is_over_source, is_over_target};
ghost use Rattle.fc_convert.specs.Opened.{IsOpen};
ghost use Rattle.fc_convert.specs.Promise.{AsksTarget, EndsByOpening, FitsGiven, HasConverted, HasTreeOf, IsAnswer, Outside};
ghost use Rattle.fc_convert.specs.Words.{words_in};

use crate::ConvertEnd;
use crate::copying::copy_objects;
use crate::source::open_source;
use crate::target::open_target;
use crate::texts::{converted_line, end_line};
use crate::words::{Asked, read_words};
use fc_device::{Disk, Failed, NoMemory, Sink};
use fc_fit::{Counts, Misfit, counts_of, first_misfit, paths_of};
use fc_names::Path;
use fc_program::write_all;
use fc_volume::Volume;
use std::alloc::Global;

// The paths of a volume's objects, if all of them fit the format.
fn fitting_paths(alloc: Global, asked: &Asked<'_>, source: &Volume) -> Result<Vec<Path>, ConvertEnd>
    requires agree { (kind : Kind) × Agree kind (parts_of source.now) }
    ensures ok { IfOk result (λ paths. AreFitting asked.now.format source.now paths.items) }
    ensures some { IfOk result (λ paths. 0 < length paths.items) }
    ensures err { IfErr result (IsUnfit asked.now.format source.now) }
{
    // A law, for the proof alone: what is found among nodes by rising paths is so in the tree.
    fc_fit::rising();
    let Ok(mut paths) = paths_of(alloc, source.tree()) else {
        return Err(ConvertEnd::NoMemory);
    };
    match first_misfit(asked.format, source.tree(), &paths) {
        None => Ok(paths),
        Some(Misfit { at, what }) => Err(ConvertEnd::Unfit {
            path: paths.swap_remove(at),
            what,
        }),
    }
}

// Makes a fresh volume with the tree of a volume.
fn copy_volume<D: Disk, E: Disk>(
    alloc: Global,
    asked: &Asked<'_>,
    source: &Volume,
    from: &mut D,
    to: &mut E,
) -> Result<Counts, ConvertEnd>
    requires source { IsOpen D.Disk true source.now from.old }
    ensures { CopiesVolume D.Disk E.Disk (words_in asked.now) source.now from.old from.new to.old to.new result }
{
    // Laws, for the proof alone: as above, and that the commands for a tree make it.
    fc_fit::rising();
    fc_fit::converts();
    let paths = fitting_paths(alloc, asked, source)?;
    let mut target = open_target(alloc, to, asked)?;
    copy_objects(alloc, source, from, &mut target, to, &paths[1..])?;
    Ok(counts_of(source.tree(), &paths))
}

// Converts the volume that the words name.
fn convert_volume<D: Disk, E: Disk>(
    alloc: Global,
    asked: &Asked<'_>,
    from: &mut D,
    to: &mut E,
) -> Result<Counts, ConvertEnd>
    ensures { ConvertsDisks D.Disk E.Disk (words_in asked.now) from.old from.new to.old to.new result }
{
    let source = open_source(alloc, from, asked.from)?;
    copy_volume(alloc, asked, &source, from, to)
}

// Writes the line of an end. Answers this end, unless the line couldn't be written.
fn tell<K: Sink>(out: &mut K, end: ConvertEnd, line: Result<Vec<u8>, NoMemory>) -> ConvertEnd
    ensures { (text : List ℕ) → IfOk line (λ line. line.items ≡ text) → TellsLine K.Sink out.old out.new end text result }
{
    let Ok(line) = line else {
        return ConvertEnd::NoMemory;
    };
    match write_all(out, &line) {
        Ok(()) => end,
        Err(Failed) => ConvertEnd::OutFault,
    }
}

// Converts what the words ask for, and tells how that ended.
fn convert_asked<D: Disk, E: Disk, K: Sink>(
    alloc: Global,
    asked: &Asked<'_>,
    from: &mut D,
    to: &mut E,
    out: &mut K,
) -> ConvertEnd
    ensures { let old : Outside _ _ _ = record { from = from.old; to = to.old; out = out.old } in
        let new : Outside _ _ _ = record { from = from.new; to = to.new; out = out.new } in
        HasConverted D.Disk E.Disk K.Sink (words_in asked.now) old new result }
{
    match convert_volume(alloc, asked, from, to) {
        Ok(counts) => tell(out, ConvertEnd::Done, converted_line(alloc, counts)),
        Err(end) => {
            let line = end_line(alloc, &end);
            tell(out, end, line)
        }
    }
}

/// Makes a fresh volume of another format with the tree of a volume, and writes one line.
///
/// `words` are the arguments, without the program's name: the format and two names. The source is opened for reading alone. All
/// its objects are judged before the target is asked for. Then the target is made, a fresh volume, and each object on it, by rising
/// folded paths, each directory before what it holds.
pub fn convert<D: Disk, E: Disk, K: Sink>(
    alloc: Global,
    words: &Vec<String>,
    from: &mut D,
    to: &mut E,
    out: &mut K,
) -> ConvertEnd
    // Disks and output may make known: `gives`, which names can be opened; `bytes`, the image; `taken`, what the output took
    // (`Wrote` says nothing if that isn't known). Always known: `asked`, what was asked of a disk; `pending`, whether a write isn't
    // synced; `faults`, the I/O errors so far. `ForSome x p`: if x is known, p holds of it. `convert_words (..) ≡ Some w`: the words
    // are a format and two names that aren't empty.

    // Exactly words that aren't are bad, and then nothing is asked, read or written.
    ensures bad_words { result ≡ ConvertEnd.BadWords → convert_words (map string_bytes words.now.items) ≡ None }
    ensures words { convert_words (map string_bytes words.now.items) ≡ None
        → (result ≡ ConvertEnd.BadWords) × (from.new ≡ from.old) × (to.new ≡ to.old) × (out.new ≡ out.old) }

    // The theorem. If the conversion is done and both disks tell their bytes, the target opens as the kind of a fresh volume of the
    // format, and its tree is that of the source: path by path, byte by byte, with all attributes and words.
    ensures same_tree { (w : ConvertWords) → convert_words (map string_bytes words.now.items) ≡ Some w → result ≡ ConvertEnd.Done
        → ForSome (D.bytes from.old) (λ source. ForSome (E.bytes to.old) (λ was. (target : List ℕ) × (E.bytes to.new ≡ Some target) × HasTreeOf w.format source target)) }

    // If the source tells its bytes, they decide the end: `BadImage` exactly with its first fault; else `Unfit` exactly with the first
    // object that doesn't fit (`unfit`); else, if the target tells its bytes, the target's image at Done and NoRoom is the last of those
    // that the commands for the objects leave, one after another (`IsConverted`, `HasNoRoom`). `NoRoom` comes exactly if there is no
    // space for the next object (`short`): path and refusal are those of the command that makes it.
    ensures ends { (w : ConvertWords) → convert_words (map string_bytes words.now.items) ≡ Some w
        → ForSome (D.bytes from.old) (λ image. EndsByOpening E.Disk to.old to.new w.format image (K.taken out.old) (K.taken out.new) (open_image image) result) }

    // If all is known, both disks give the names, the source is accepted and no count of faults rose, it is done, or something doesn't
    // fit, or there is no room, or memory was short.
    ensures complete { (w : ConvertWords) → convert_words (map string_bytes words.now.items) ≡ Some w
        → ForSome (D.gives from.old) (λ sources. ForSome (D.bytes from.old) (λ image. ForSome (E.gives to.old) (λ targets. ForSome (E.bytes to.old) (λ was.
        sources w.from None ≡ true → (view : Opened) → open_image image ≡ Ok view → targets w.to (Some (format_size w.format)) ≡ true
        → (Rose (D.faults from.old) (D.faults from.new) → ⊥) → (Rose (E.faults to.old) (E.faults to.new) → ⊥) → (Rose (K.faults out.old) (K.faults out.new) → ⊥)
        → IsAnswer result)))) }

    // One line is written: the end's, with the counts of files and directories at Done. `OutFault` leaves a part of one, from its front.
    // The other ends write nothing.
    ensures line { (w : ConvertWords) → convert_words (map string_bytes words.now.items) ≡ Some w → TellsEnd (K.taken out.old) (K.taken out.new) result }

    // The source is never written, and a crash leaves of it what it could have left before. Of either disk nothing is asked but the one
    // name: the source as it is, once, and the target as a fresh image of the format's size, at most once, and only if all objects fit.
    // After `NoTarget` the target is as it was.
    ensures source { IsUnwritten D.Disk from.old from.new }
    ensures asks_source { (w : ConvertWords) → convert_words (map string_bytes words.now.items) ≡ Some w → D.asked from.new ≡ D.asked from.old ++ (w.from, None) ∷ [] }
    ensures asks_target { (w : ConvertWords) → convert_words (map string_bytes words.now.items) ≡ Some w → AsksTarget E.Disk w to.old to.new result }

    // `NoSource` and `NoTarget` come only if that disk doesn't give the name, and an end over an image only if it does.
    ensures source_given { (w : ConvertWords) → convert_words (map string_bytes words.now.items) ≡ Some w
        → ForSome (D.gives from.old) (λ gives. FitsGiven (gives w.from None) ConvertEnd.NoSource result (is_over_source result)) }
    ensures target_given { (w : ConvertWords) → convert_words (map string_bytes words.now.items) ≡ Some w
        → ForSome (E.gives to.old) (λ gives. FitsGiven (gives w.to (Some (format_size w.format))) ConvertEnd.NoTarget result (is_over_target result)) }

    // `BadTarget` never comes if the target tells its bytes. At Done, NoRoom and BadTarget nothing is pending on the target.
    ensures bad_target { (fault : ImageFault) → result ≡ ConvertEnd.BadTarget fault → E.bytes to.old ≡ None }
    ensures settled { is_over_target result ≡ true → IsFalse (E.pending to.new) }

    // An I/O error is reported only if that object's count of faults rose in this call. What else a crash leaves of the target isn't said.
    ensures faults { (result ≡ ConvertEnd.FromFault → Rose (D.faults from.old) (D.faults from.new))
        × (result ≡ ConvertEnd.ToFault → Rose (E.faults to.old) (E.faults to.new))
        × (result ≡ ConvertEnd.OutFault → Rose (K.faults out.old) (K.faults out.new)) }
    ensures goes { LeavesOnly E.moment E.left_since to.old to.new (λ image. Unit {0}) }
{
    let Some(asked) = read_words(words) else {
        return ConvertEnd::BadWords;
    };
    convert_asked(alloc, &asked, from, to, out)
}
