//! The top of the filing system: a run of a script over an image.
//!
//! Every command is served, over images of every kind and over fresh volumes, and `put` and `get` with a host's files. In the safe mode
//! (`--safe`), which serves discs with big directories, each command is done whole or not at all.
#![tactic(auto)]

mod answer;
mod arguments;
mod cat;
mod change;
mod check;
mod compact;
mod demo;
mod digest;
mod digits;
mod ending;
mod files;
mod free;
mod get;
mod host_line;
mod hosted;
mod image;
mod lines;
mod load;
mod moving;
mod put;
mod reclaim;
mod reply;
mod safety;
mod script;
mod serving;
mod session;
mod sink;
mod spares;
mod suitability;
mod tally;
mod texts;
mod whole_put;

ghost use Rattle.std.specs.Prelude.{◌≡◌, ◌≢◌, ◌⊎◌, ◌<◌, ◌≤◌, [], List, ℕ, length, map, nat_lt, true, false, None, Some, string_bytes};
ghost use Rattle.std.specs.Option.{ForSome};
ghost use Rattle.fc_device.specs.Faults.{Rose};
ghost use Rattle.fc_runs.specs.Demo.{demo_script};
ghost use Rattle.fc_runs.specs.Run.{commands_in, script_for};
ghost use Rattle.fc_words.specs.CommandLine.{Request, request_of};
ghost use Rattle.fc_words.specs.Request.{request_in};
ghost use Rattle.fc_shell.specs.Reads.{Spares, only_reads};
ghost use Rattle.fc_shell.specs.Ends.{is_early, is_late_alone};
ghost use Rattle.fc_shell.specs.Headline.{IsAnsweredByMap};
ghost use Rattle.fc_shell.specs.Kept.{RunKeeps, RunSpares};
ghost use Rattle.fc_shell.specs.Promise.{EndsByGiving, EndsByLength, Promise};
ghost use Rattle.fc_shell.specs.ReadsLaw.{ReadsLaw};
ghost use Rattle.fc_shell.specs.Replies.{AsksNoDemo, EndsAs, asked_script, blank_size, demo_limit, run_reply, script_limit, told_script};
ghost use Rattle.fc_shell.specs.Script.{behind_limit};
ghost use Rattle.fc_shell.specs.Writing.{Wrote};

pub use arguments::{image_of, program, words_of};
pub use ending::End;
use fc_demo::demo_script;
use fc_device::{Disk, NoMemory, Sink, Source};
pub use fc_image::ImageFault;
use fc_words::{Words, WordsError, read_words};
pub use hosted::run_with;
use script::{ScriptError, read_script};
use session::answer_script;
use std::alloc::Global;

// Runs a demo.
fn run_demo<D: Disk, K: Sink>(
    alloc: Global,
    asked: &Words,
    n: u32,
    disk: &mut D,
    out: &mut K,
) -> End
    requires asked { (request_in asked.now).demo ≡ Some n }
    requires few { n ≤ demo_limit }
    ensures promise { let r = request_in asked.now in ForSome (D.gives disk.old) (λ gives. ForSome (D.bytes disk.old) (λ image.
        (text : List ℕ) × Wrote (K.taken out.old) (K.taken out.new) text
        × EndsByGiving D.Disk disk.old disk.new r image (demo_script n) text (gives r.image (blank_size r)) result)) }
    ensures keeps { RunKeeps D.Disk K.Sink (request_in asked.now) (Spares (request_in asked.now).read_only (commands_in (demo_script n))) disk.old disk.new out.old out.new result }
    ensures ended { (is_late_alone result ≡ true) ⊎ (result ≡ End.NoImage) }
{
    // A law, for the proof alone: an image that is accepted opens as its own kind.
    fc_image::accepted();
    match demo_script(alloc, n) {
        Err(NoMemory) => End::NoMemory,
        Ok(script) => answer_script(alloc, asked, &script, disk, out),
    }
}

// Runs what the words ask for.
fn run_request<D: Disk, S: Source, K: Sink>(
    alloc: Global,
    asked: &Words,
    disk: &mut D,
    script: &mut S,
    out: &mut K,
) -> End
    requires few { ForSome (request_in asked.now).demo (λ n. n ≤ demo_limit) }
    ensures promise { let r = request_in asked.now in ForSome (D.gives disk.old) (λ gives. ForSome (told_script r.demo (S.left script.old)) (λ lines. ForSome (D.bytes disk.old) (λ image.
        (text : List ℕ) × Wrote (K.taken out.old) (K.taken out.new) text
        × EndsByLength D.Disk disk.old disk.new gives r image lines text (nat_lt script_limit (length lines)) result))) }
    ensures keeps { RunKeeps D.Disk K.Sink (request_in asked.now) (RunSpares (request_in asked.now) (told_script (request_in asked.now).demo (S.left script.old))) disk.old disk.new out.old out.new result }
    ensures unattached { ForSome (told_script (request_in asked.now).demo (S.left script.old)) (λ text. script_limit < length text
        → (is_early result ≡ true) × (disk.new ≡ disk.old) × (out.new ≡ out.old)) }
    ensures too_long { result ≡ End.ScriptTooLong → (disk.new ≡ disk.old) × (out.new ≡ out.old) × ForSome (S.left script.old) (λ text. script_limit < length text)
        × (S.left script.new ≡ behind_limit (S.left script.old)) }
    ensures script_fault { result ≡ End.ScriptFault → Rose (S.faults script.old) (S.faults script.new) × (disk.new ≡ disk.old) × (out.new ≡ out.old) }
    ensures script_end { (request_in asked.now).demo ≡ None → is_early result ≡ false → ForSome (S.left script.new) (λ rest. rest ≡ []) }
    ensures unread { (n : ℕ) → (request_in asked.now).demo ≡ Some n → (script.new ≡ script.old) × (result ≢ End.ScriptFault) × (result ≢ End.ScriptTooLong) }
    ensures good_words { result ≢ End.BadWords }
{
    // A law, for the proof alone: an image that is accepted opens as its own kind.
    fc_image::accepted();
    if let Some(n) = asked.demo {
        return run_demo(alloc, asked, n, disk, out);
    }
    match read_script(alloc, script) {
        Err(ScriptError::Source) => End::ScriptFault,
        Err(ScriptError::NoMemory) => End::NoMemory,
        Ok(None) => End::ScriptTooLong,
        Ok(Some(text)) => answer_script(alloc, asked, &text, disk, out),
    }
}

/// Runs the script that the source gives over the image that the words name, or over a fresh one, and writes the replies. A demo
/// has a script of its own: the source isn't read, and one line that counts the replies is written in their place.
///
/// `words` are the arguments, without the program's name. In this order: the words, the whole script, the image, the fresh volume
/// if one is asked for, opening, and the lines in turn. The first of these that fails ends the run. A line that is refused doesn't:
/// its reply is an error line, and the script goes on. Without `--new`, the image is written only by commands that change the disc,
/// and never if the words forbid it.
///
/// In the safe mode a volume that it doesn't serve ends the run as `NotSafe`, after opening and before the first line: a disc with an old
/// map or small directories, a fresh D disc among them, or one with a directory in the map's identifier.
///
/// If the source's content is known, one end doesn't depend on the disk: if the words are right, a script that is too long ends as
/// `ScriptTooLong`, and no other does; an I/O error of the source or out of memory may come first.
pub fn run<D: Disk, S: Source, K: Sink>(
    alloc: Global,
    words: &Vec<String>,
    disk: &mut D,
    script: &mut S,
    out: &mut K,
) -> End
    // Disk, source and sink may make known: `gives`, which names can be opened; `bytes`, the image; `left`, what the source still
    // has; `taken`, what the sink took (`Wrote` says nothing if that isn't known). Always known: `asked`, what was asked of the
    // disk; `pending`, whether a write isn't synced; `faults`, the I/O errors so far. `ForSome x p`: if x is known, p holds of it.
    // `request_of (..) ≡ Some r`: the words are right, and ask for r.

    // If all contents are known: for each end, what was written, and what the disk has then, unless it failed (`Promise`). At Done
    // and Refused the lines are steps from the image as it opened, or from the fresh one, to the one that the disk has, and their
    // replies were written. If all writes were synced before, `Stops` of fc_runs says what a crash leaves. Over a new map, a crash
    // at any moment of a run whose lines are refused, read, compact or reclaim leaves an image that opens as before, with the same
    // tree. In the safe mode a crash at any moment leaves the tree after some of the lines, and a crash at the end, an I/O error
    // included, the tree after all those whose replies were written, or after one line more if it broke off in that.
    ensures promise { ForSome (D.gives disk.old) (λ gives. ForSome (asked_script (request_of (map string_bytes words.now.items)) (S.left script.old)) (λ lines. ForSome (D.bytes disk.old) (λ image.
        (text : List ℕ) × Wrote (K.taken out.old) (K.taken out.new) text
        × Promise D.Disk disk.old disk.new gives image lines text (request_of (map string_bytes words.now.items)) result))) }

    // The headline. If all lines were done (`Done`, or `Refused` if some got an error line) and the contents are known: the image
    // opens, and its tree is a map from paths to attributes and bytes. Each line is answered by this map and the form of the disc's
    // names (`answer`): by a refusal, which leaves it, or by the map after the command and its reply. Where things lie on the disc
    // decides three things alone: which commands that the map accepts lack space or room in a directory (`short`; in the safe mode
    // `safe_refusal`), that `reclaim` asks for a new map, and what `free`, `check` and `reclaim` reply. The replies were written in
    // order, and the image, opened as the kind that it was, holds the last map.
    ensures headline { (r : Request) → request_of (map string_bytes words.now.items) ≡ Some r → (result ≡ End.Done) ⊎ (result ≡ End.Refused)
        → ForSome (D.gives disk.old) (λ gives. ForSome (told_script r.demo (S.left script.old)) (λ lines. ForSome (D.bytes disk.old) (λ image.
        (text : List ℕ) × Wrote (K.taken out.old) (K.taken out.new) text × IsAnsweredByMap D.Disk disk.new r image lines text))) }

    // If the script only reads, and is no demo's, end and text are even a function of words, script, image and the names that can be
    // opened (`run_reply`); after an I/O error or out of memory the text is a part of that, from its front.
    ensures reply { AsksNoDemo (request_of (map string_bytes words.now.items)) → ForSome (D.gives disk.old) (λ gives. ForSome (S.left script.old) (λ text. ForSome (D.bytes disk.old) (λ image. only_reads text ≡ true →
        EndsAs (run_reply (map string_bytes words.now.items) gives text image) result (K.taken out.old) (K.taken out.new)))) }

    // Exactly words that aren't of the grammar are bad, also if memory is short; then nothing is read, opened or written.
    ensures bad_words { result ≡ End.BadWords → request_of (map string_bytes words.now.items) ≡ None }
    ensures words { request_of (map string_bytes words.now.items) ≡ None
        → (result ≡ End.BadWords) × (script.new ≡ script.old) × (disk.new ≡ disk.old) × (out.new ≡ out.old) }

    // What a run keeps and causes of disk and sink (`RunKeeps`). Of the disk nothing is asked, or one image, and once: the one that the
    // words name, as it is or as a fresh one of its format's size; the end says whether it was asked, unless memory was short. An I/O
    // error is reported only if that object's count of faults rose in this call. `NoImage` comes only if the disk can't open the name,
    // and an end over an image only if it can, as far as that is known; after `NoImage` the disk is as it was, but that it was asked,
    // and a crash shows nothing new. `NotSafe` comes only if the safe mode is asked for. If the run may not change the image, or the
    // script only reads, an image that is there keeps its bytes, and a crash leaves only what a crash before the run could have left;
    // with `--new` the disk then has the fresh one at each end over an image (`is_over_image`). All that was written is synced at such
    // an end, and after out of memory.
    ensures keeps { (r : Request) → request_of (map string_bytes words.now.items) ≡ Some r
        → RunKeeps D.Disk K.Sink r (RunSpares r (told_script r.demo (S.left script.old))) disk.old disk.new out.old out.new result }

    // If the script is too long, the run ends before an image is asked for. `ScriptTooLong` has no other cause, and `ScriptFault` only
    // an I/O error of the source.
    ensures unattached { ForSome (asked_script (request_of (map string_bytes words.now.items)) (S.left script.old)) (λ text. script_limit < length text
        → (is_early result ≡ true) × (disk.new ≡ disk.old) × (out.new ≡ out.old)) }
    ensures too_long { result ≡ End.ScriptTooLong → (disk.new ≡ disk.old) × ForSome (S.left script.old) (λ text. script_limit < length text)
        × (S.left script.new ≡ behind_limit (S.left script.old)) }
    ensures script_fault { result ≡ End.ScriptFault → Rose (S.faults script.old) (S.faults script.new) × (disk.new ≡ disk.old) }

    // At these ends nothing was written.
    ensures silent { (result ≡ End.NotSafe) ⊎ ((result ≡ End.NoImage) ⊎ ((result ≡ End.ScriptFault) ⊎ (result ≡ End.ScriptTooLong))) → out.new ≡ out.old }

    // The source was read to its end, if the run doesn't end before an image is asked for. A demo doesn't read it.
    ensures script_end { AsksNoDemo (request_of (map string_bytes words.now.items)) → is_early result ≡ false → ForSome (S.left script.new) (λ rest. rest ≡ []) }
    ensures unread { (r : Request) → request_of (map string_bytes words.now.items) ≡ Some r → (n : ℕ) → r.demo ≡ Some n
        → (script.new ≡ script.old) × (result ≢ End.ScriptFault) × (result ≢ End.ScriptTooLong) }
{
    // Laws, for the proof alone: an image that is accepted opens as its own kind, and lines are answered as by a map.
    fc_image::accepted();
    fc_runs::headline();
    match read_words(alloc, words) {
        Err(WordsError::BadWords) => End::BadWords,
        Err(WordsError::NoMemory) => End::NoMemory,
        Ok(asked) => run_request(alloc, &asked, disk, script, out),
    }
}

/// A law: the replies of a script that only reads are those of a run that leaves everything, and of no other run; and a fresh image
/// is accepted.
pub fn reads()
    ensures { ReadsLaw }
{
    fc_runs::reading();
    fc_format::opens();
}
