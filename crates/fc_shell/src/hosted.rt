// A script whose lines may move files of the host, from the words to the last reply.
ghost use Rattle.std.specs.Prelude.{◌≡◌, ◌≢◌, ◌⊎◌, ◌<◌, ◌≤◌, [], ℕ, List, length, map, nat_lt, true, false, Err, None, Some, IsFalse, IsTrue, string_bytes};
ghost use Rattle.std.specs.Option.{ForSome};
ghost use Rattle.fc_device.specs.Calls.{OnlyReads};
ghost use Rattle.fc_device.specs.Faults.{Rose};
ghost use Rattle.fc_device.specs.Form.{IsFresh};
ghost use Rattle.fc_image.specs.Opening.{open_image};
ghost use Rattle.fc_runs.specs.Run.{commands_in};
ghost use Rattle.fc_volume.specs.Volume.{StandsFor};
ghost use Rattle.fc_words.specs.CommandLine.{Request, request_of};
ghost use Rattle.fc_words.specs.Request.{request_in};
ghost use Rattle.fc_shell.specs.Answered.{ForState};
ghost use Rattle.fc_shell.specs.Ends.{is_early, is_late, move_end};
ghost use Rattle.fc_shell.specs.HostHeadline.{IsAnsweredByMaps, IsInLines, IsServedWithHost};
ghost use Rattle.fc_shell.specs.HostPromise.{HostKeeps, HostPromise, HostRunSpares, MovesByGiving, MovesByLength, MovesByOpening, MovesBySuiting};
ghost use Rattle.fc_shell.specs.Kept.{RunKeeps, SessionKeeps};
ghost use Rattle.fc_shell.specs.Modes.{SuitsMode, is_unsuited, mode_of};
ghost use Rattle.fc_shell.specs.Moving.{AsksMore, HostSpares};
ghost use Rattle.fc_shell.specs.Replies.{AsksNoDemo, asked_script, blank_size, demo_limit, script_limit, told_script};
ghost use Rattle.fc_shell.specs.Script.{behind_limit};
ghost use Rattle.fc_shell.specs.Writing.{Wrote};

use crate::demo::end_after;
use crate::ending::End;
use crate::image::attach_image;
use crate::moving::MoveFault;
use crate::run_demo;
use crate::script::{ScriptError, read_script};
use crate::serving::serve_with;
use crate::session::tell_fault;
use crate::suitability::is_unsuited;
use crate::tally::Tally;
use fc_device::{Disk, DiskFault, Sink, Source};
use fc_host::Host;
use fc_volume::{MountError, Volume};
use fc_words::{Words, WordsError, read_words};
use std::alloc::Global;

// How a run ends whose lines were served.
fn end_of_moves(served: Result<Tally, MoveFault>) -> End
    ensures { result ≡ move_end served }
{
    match served {
        Ok(tally) => end_after(tally),
        Err(MoveFault::Disk) => End::DiskFault,
        Err(MoveFault::Out) => End::OutFault,
        Err(MoveFault::Host) => End::HostFault,
        Err(MoveFault::NoMemory) => End::NoMemory,
    }
}

// Serves a script over a volume that was opened, unless the safe mode is asked for and doesn't serve it.
fn answer_lines_with<D: Disk, K: Sink, H: Host>(
    alloc: Global,
    volume: &mut Volume,
    disk: &mut D,
    out: &mut K,
    host: &mut H,
    script: &[u8],
    safe: bool,
) -> End
    requires attached { IsTrue (D.attached disk.old) }
    requires fit { IsTrue volume.old.fit }
    requires stands { StandsFor D.Disk volume.old disk.old }
    requires settled { IsFalse (D.pending disk.old) }
    requires short { length script.now ≤ script_limit }
    ensures promise { ForState (D.bytes disk.old) volume.old (λ kind s. AsksMore H.Host host.old host.new (λ asked. (text : List ℕ) × Wrote (K.taken out.old) (K.taken out.new) text
        × MovesBySuiting D.Disk disk.old disk.new (mode_of kind volume.old.read_only safe) false s (H.files host.old) (H.files host.new) asked script.now text (is_unsuited safe s.view) result)) }
    ensures keeps { SessionKeeps D.Disk K.Sink safe (HostSpares volume.old.read_only (commands_in script.now)) disk.old disk.new out.old out.new result }
    ensures host { HostKeeps H.Host (Some script.now) host.old host.new result }
{
    if is_unsuited(volume, safe) {
        return End::NotSafe;
    }
    end_of_moves(serve_with(alloc, volume, disk, out, host, script, safe))
}

// Opens the image of a disk that was just attached, and serves a script over it.
fn answer_image_with<D: Disk, K: Sink, H: Host>(
    alloc: Global,
    disk: &mut D,
    out: &mut K,
    host: &mut H,
    script: &[u8],
    read_only: bool,
    safe: bool,
) -> End
    requires fresh { IsFresh D.attached D.pending D.sector_size disk.old }
    requires short { length script.now ≤ script_limit }
    ensures promise { ForSome (D.bytes disk.old) (λ image. AsksMore H.Host host.old host.new (λ asked. (text : List ℕ) × Wrote (K.taken out.old) (K.taken out.new) text
        × MovesByOpening D.Disk disk.old disk.new read_only safe false (H.files host.old) (H.files host.new) asked image script.now text (open_image image) result)) }
    ensures keeps { SessionKeeps D.Disk K.Sink safe (HostSpares read_only (commands_in script.now)) disk.old disk.new out.old out.new result }
    ensures host { HostKeeps H.Host (Some script.now) host.old host.new result }
{
    // A law, for the proof alone: an image that is accepted opens as its own kind.
    fc_image::accepted();
    match Volume::mount(alloc, disk, read_only) {
        Ok(mut volume) => answer_lines_with(alloc, &mut volume, disk, out, host, script, safe),
        Err(MountError::Image(fault)) => tell_fault(alloc, out, fault),
        Err(MountError::DiskFault) => End::DiskFault,
        Err(MountError::NoMemory) => End::NoMemory,
    }
}

// Answers a script over the image that is asked for.
fn answer_script_with<D: Disk, K: Sink, H: Host>(
    alloc: Global,
    asked: &Words,
    script: &[u8],
    disk: &mut D,
    out: &mut K,
    host: &mut H,
) -> End
    requires short { length script.now ≤ script_limit }
    ensures promise { let r = request_in asked.now in ForSome (D.gives disk.old) (λ gives. ForSome (D.bytes disk.old) (λ image. AsksMore H.Host host.old host.new (λ more.
        (text : List ℕ) × Wrote (K.taken out.old) (K.taken out.new) text
        × MovesByGiving D.Disk disk.old disk.new r (H.files host.old) (H.files host.new) more image script.now text (gives r.image (blank_size r)) result))) }
    ensures keeps { RunKeeps D.Disk K.Sink (request_in asked.now) (HostSpares (request_in asked.now).read_only (commands_in script.now)) disk.old disk.new out.old out.new result }
    ensures host { HostKeeps H.Host (Some script.now) host.old host.new result }
    ensures late { (is_late result ≡ true) ⊎ (result ≡ End.NoImage) }
{
    // Laws, for the proof alone: a fresh image is accepted, and one that is accepted opens as its own kind.
    fc_image::accepted();
    fc_format::opens();
    match attach_image(disk, asked.image.as_str(), asked.new) {
        Err(DiskFault) => End::DiskFault,
        Ok(false) => End::NoImage,
        Ok(true) => answer_image_with(alloc, disk, out, host, script, asked.read_only, asked.safe),
    }
}

// Runs what the words ask for. A demo asks nothing of the host.
fn run_request_with<D: Disk, S: Source, K: Sink, H: Host>(
    alloc: Global,
    asked: &Words,
    disk: &mut D,
    script: &mut S,
    out: &mut K,
    host: &mut H,
) -> End
    requires few { ForSome (request_in asked.now).demo (λ n. n ≤ demo_limit) }
    ensures promise { let r = request_in asked.now in ForSome (D.gives disk.old) (λ gives. ForSome (told_script r.demo (S.left script.old)) (λ lines. ForSome (D.bytes disk.old) (λ image.
        AsksMore H.Host host.old host.new (λ more. (text : List ℕ) × Wrote (K.taken out.old) (K.taken out.new) text
        × MovesByLength D.Disk disk.old disk.new gives r (H.files host.old) (H.files host.new) more image lines text (nat_lt script_limit (length lines)) result)))) }
    ensures keeps { RunKeeps D.Disk K.Sink (request_in asked.now) (HostRunSpares (request_in asked.now) (told_script (request_in asked.now).demo (S.left script.old))) disk.old disk.new out.old out.new result }
    ensures host { HostKeeps H.Host (told_script (request_in asked.now).demo (S.left script.old)) host.old host.new result }
    ensures unattached { ForSome (told_script (request_in asked.now).demo (S.left script.old)) (λ text. script_limit < length text
        → (is_early result ≡ true) × (disk.new ≡ disk.old) × (out.new ≡ out.old) × (host.new ≡ host.old)) }
    ensures too_long { result ≡ End.ScriptTooLong → (disk.new ≡ disk.old) × (out.new ≡ out.old) × ForSome (S.left script.old) (λ text. script_limit < length text)
        × (S.left script.new ≡ behind_limit (S.left script.old)) }
    ensures script_fault { result ≡ End.ScriptFault → Rose (S.faults script.old) (S.faults script.new) × (disk.new ≡ disk.old) × (out.new ≡ out.old) }
    ensures script_end { (request_in asked.now).demo ≡ None → is_early result ≡ false → ForSome (S.left script.new) (λ rest. rest ≡ []) }
    ensures unread { (n : ℕ) → (request_in asked.now).demo ≡ Some n → (script.new ≡ script.old) × (result ≢ End.ScriptFault) × (result ≢ End.ScriptTooLong) × (host.new ≡ host.old) }
    ensures good_words { result ≢ End.BadWords }
{
    // A law, for the proof alone: an image that is accepted opens as its own kind.
    fc_image::accepted();
    if let Some(n) = asked.demo {
        return run_demo(alloc, asked, n, disk, out);
    }
    match read_script(alloc, script) {
        Err(ScriptError::Source) => End::ScriptFault,
        Err(ScriptError::NoMemory) => End::NoMemory,
        Ok(None) => End::ScriptTooLong,
        Ok(Some(text)) => answer_script_with(alloc, asked, &text, disk, out, host),
    }
}

/// Runs a script as `run` does, and lines may also copy files between the disc and the host: `get PATH HOST` makes a file of the host
/// with an object's bytes, and `put HOST PATH LOAD EXEC` saves the bytes of a file of the host, in blocks.
///
/// A `get` is refused as `load` is, and then if the host has a file of that name. A `put` is refused as `save` is for its path, then if
/// the host has no such file, then if that is longer than an entry can say, and then as `save` is for want of space. A call of the host
/// that fails ends the run as `HostFault`. If a `get` breaks off, its file is taken back; a part of it stays only if that fails too. If
/// a `put` does, what was written lies where nothing is, and is synced. In the safe mode `put` takes all of the file into memory first,
/// and is then the `save` of these bytes; nothing is written before that.
pub fn run_with<D: Disk, S: Source, K: Sink, H: Host>(
    alloc: Global,
    words: &Vec<String>,
    disk: &mut D,
    script: &mut S,
    out: &mut K,
    host: &mut H,
) -> End
    // Of disk, source and sink the clauses speak as those of `run` do. A host may make known `files`, its files by their names. Always
    // known: `asked`, what was asked of it, in order and with its bytes; `faults`.

    // If the contents of disk and source are known: for each end, what was written, what the disk has then, and what was asked of the
    // host, unless the disk failed. At Done and Refused the lines are steps from the image as it opened, or from the fresh one, and
    // for each line it is told what it asked of the host: a `get` that is done made its file, and added the object's bytes and no
    // others, and a `put` saved just the bytes that were taken of its file. If the host fails in a `put`, the image opens as the very
    // same. If all writes were synced before, a crash leaves what `AskedStops` of fc_runs says: `get` leaves the image, and in the safe
    // mode a crash at any moment leaves the tree after some of the lines.
    ensures promise { ForSome (D.gives disk.old) (λ gives. ForSome (asked_script (request_of (map string_bytes words.now.items)) (S.left script.old)) (λ lines. ForSome (D.bytes disk.old) (λ image.
        AsksMore H.Host host.old host.new (λ asked. (text : List ℕ) × Wrote (K.taken out.old) (K.taken out.new) text
        × HostPromise D.Disk disk.old disk.new gives (H.files host.old) (H.files host.new) asked image lines text (request_of (map string_bytes words.now.items)) result)))) }

    // If the host tells its files too and the run ended in its lines or after them: the lines are steps with the files of the host
    // (`HostStep` of fc_runs). A `get` adds the file, and no line changes another one.
    ensures told { (r : Request) → request_of (map string_bytes words.now.items) ≡ Some r → r.demo ≡ None → IsInLines result
        → ForSome (D.gives disk.old) (λ gives. ForSome (S.left script.old) (λ lines. ForSome (D.bytes disk.old) (λ image.
        (text : List ℕ) × Wrote (K.taken out.old) (K.taken out.new) text × IsServedWithHost D.Disk disk.old disk.new r image lines text (H.files host.old) (H.files host.new) result))) }

    // The headline, if all lines were done: each line is answered by two maps, the disc's from paths to attributes and bytes and the
    // host's from names to bytes. `get` is refused as `load` is by the first, then if the second has its name; else it adds that. `put`
    // is refused as `save` is by the first, then for want of the file in the second or for its length; else it is that `save`.
    ensures headline { (r : Request) → request_of (map string_bytes words.now.items) ≡ Some r → r.demo ≡ None → (result ≡ End.Done) ⊎ (result ≡ End.Refused)
        → ForSome (D.gives disk.old) (λ gives. ForSome (S.left script.old) (λ lines. ForSome (D.bytes disk.old) (λ image. ForSome (H.files host.old) (λ files.
        (text : List ℕ) × Wrote (K.taken out.old) (K.taken out.new) text × IsAnsweredByMaps D.Disk disk.new r image lines text files (H.files host.new))))) }

    // Whatever is known: each line in turn asks of the host what it may, and nothing else is asked. A line names only its own file. A
    // `put` only looks at it; a `get` makes it before it adds to it or removes it, and so changes no file that was there. A demo asks
    // nothing. A failure is the host's only if its count of faults rose.
    ensures host { HostKeeps H.Host (asked_script (request_of (map string_bytes words.now.items)) (S.left script.old)) host.old host.new result }

    // What `run` keeps and causes of disk and sink. Lines write nothing if each reads or copies a file to the host.
    ensures keeps { (r : Request) → request_of (map string_bytes words.now.items) ≡ Some r
        → RunKeeps D.Disk K.Sink r (HostRunSpares r (told_script r.demo (S.left script.old))) disk.old disk.new out.old out.new result }

    // As of `run`: bad words, a script that is too long or whose source fails, and what is read of it.
    ensures bad_words { result ≡ End.BadWords → request_of (map string_bytes words.now.items) ≡ None }
    ensures words { request_of (map string_bytes words.now.items) ≡ None
        → (result ≡ End.BadWords) × (script.new ≡ script.old) × (disk.new ≡ disk.old) × (out.new ≡ out.old) × (host.new ≡ host.old) }
    ensures unattached { ForSome (asked_script (request_of (map string_bytes words.now.items)) (S.left script.old)) (λ text. script_limit < length text
        → (is_early result ≡ true) × (disk.new ≡ disk.old) × (out.new ≡ out.old) × (host.new ≡ host.old)) }
    ensures too_long { result ≡ End.ScriptTooLong → (disk.new ≡ disk.old) × (out.new ≡ out.old) × ForSome (S.left script.old) (λ text. script_limit < length text)
        × (S.left script.new ≡ behind_limit (S.left script.old)) }
    ensures script_fault { result ≡ End.ScriptFault → Rose (S.faults script.old) (S.faults script.new) × (disk.new ≡ disk.old) × (out.new ≡ out.old) }
    ensures script_end { AsksNoDemo (request_of (map string_bytes words.now.items)) → is_early result ≡ false → ForSome (S.left script.new) (λ rest. rest ≡ []) }
    ensures unread { (r : Request) → request_of (map string_bytes words.now.items) ≡ Some r → (n : ℕ) → r.demo ≡ Some n
        → (script.new ≡ script.old) × (result ≢ End.ScriptFault) × (result ≢ End.ScriptTooLong) × (host.new ≡ host.old) }
{
    // Laws, for the proof alone: an image that is accepted opens as its own kind, and lines are answered as by two maps.
    fc_image::accepted();
    fc_runs::host_headline();
    match read_words(alloc, words) {
        Err(WordsError::BadWords) => End::BadWords,
        Err(WordsError::NoMemory) => End::NoMemory,
        Ok(asked) => run_request_with(alloc, &asked, disk, script, out, host),
    }
}
