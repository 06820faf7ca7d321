// A script over an image, from its opening to the last reply.
ghost use Rattle.std.specs.Prelude.{◌≡◌, ◌⊎◌, ◌≤◌, List, ℕ, length, true, false, Err, Some, IsFalse, IsTrue};
ghost use Rattle.std.specs.Option.{ForSome};
ghost use Rattle.fc_device.specs.Calls.{OnlyReads};
ghost use Rattle.fc_device.specs.Faults.{Rose};
ghost use Rattle.fc_device.specs.Form.{IsFresh};
ghost use Rattle.fc_image.specs.Opening.{open_image};
ghost use Rattle.fc_runs.specs.Replies.{bad_image_line};
ghost use Rattle.fc_runs.specs.Run.{commands_in, script_for};
ghost use Rattle.fc_volume.specs.Volume.{StandsFor};
ghost use Rattle.fc_words.specs.Request.{request_in};
ghost use Rattle.fc_shell.specs.Answered.{ForState, IsCaused};
ghost use Rattle.fc_shell.specs.Reads.{Spares};
ghost use Rattle.fc_shell.specs.Ends.{end_of, is_late_alone};
ghost use Rattle.fc_shell.specs.Kept.{RunKeeps, SessionKeeps};
ghost use Rattle.fc_runs.specs.Meanwhile.{GoesOn};
ghost use Rattle.fc_shell.specs.Modes.{SuitsMode, is_unsuited, mode_of};
ghost use Rattle.fc_shell.specs.Promise.{EndsByGiving, EndsByOpening, EndsBySuiting, EndsOver};
ghost use Rattle.fc_shell.specs.Replies.{blank_size, script_limit};
ghost use Rattle.fc_shell.specs.Serving.{ServesAs};
ghost use Rattle.fc_shell.specs.Writing.{Wrote, WrotePart};

use crate::answer::{LineFault, answer_line};
use crate::demo::{Replies, end_after, tell_tally};
use crate::ending::End;
use crate::image::attach_image;
use crate::lines::CommandLines;
use crate::sink::write_all;
use crate::suitability::is_unsuited;
use crate::tally::Tally;
use crate::texts::bad_image_line;
use fc_device::{Disk, DiskFault, Failed, Sink};
use fc_image::ImageFault;
use fc_volume::{MountError, Volume};
use fc_words::Words;
use std::alloc::Global;

// Serves the command lines of a script in turn over a volume that stands for the disk. Answers how many replies there are,
// and how many are error lines.
fn serve<D: Disk, K: Sink>(
    alloc: Global,
    volume: &mut Volume,
    disk: &mut D,
    out: &mut K,
    script: &[u8],
    safe: bool,
) -> Result<Tally, LineFault>
    requires attached { IsTrue (D.attached disk.old) }
    requires fit { IsTrue volume.old.fit }
    requires stands { StandsFor D.Disk volume.old disk.old }
    requires settled { IsFalse (D.pending disk.old) }
    requires suits { SuitsMode safe volume.old }
    requires short { length script.now ≤ script_limit }
    ensures served { ForState (D.bytes disk.old) volume.old (λ kind s.
        ServesAs D.Disk disk.old disk.new (mode_of kind volume.old.read_only safe) s script.now (K.taken out.old) (K.taken out.new) result) }
    ensures goes { GoesOn D.Disk disk.old disk.new }
    ensures settled { (result ≡ Err LineFault.Disk → ⊥) → D.pending disk.new ≡ false }
    ensures reads { Spares volume.old.read_only (commands_in script.now) → OnlyReads D.Disk disk.old disk.new }
    ensures caused { IsCaused D.Disk K.Sink disk.old disk.new out.old out.new result }
{
    let mut tally = Tally::new();
    let mut lines = CommandLines::new(script);
    while let Some(line) = lines.next() {
        let refused = answer_line(alloc, volume, disk, out, line, safe)?;
        tally.count(refused);
    }
    Ok(tally)
}

// How a run ends whose lines were served.
fn end_of(served: Result<Tally, LineFault>) -> End
    ensures { result ≡ end_of served }
{
    match served {
        Ok(tally) => end_after(tally),
        Err(LineFault::Disk) => End::DiskFault,
        Err(LineFault::Out) => End::OutFault,
        Err(LineFault::NoMemory) => End::NoMemory,
    }
}

/// Ends a run over an image that isn't accepted: writes its line.
pub fn tell_fault<K: Sink>(alloc: Global, out: &mut K, fault: ImageFault) -> End
    ensures bad { result ≡ End.BadImage fault → Wrote (K.taken out.old) (K.taken out.new) (bad_image_line fault) }
    ensures part { WrotePart (K.taken out.old) (K.taken out.new) (bad_image_line fault) }
    ensures no_memory { result ≡ End.NoMemory → out.new ≡ out.old }
    ensures later { K.faults out.old ≤ K.faults out.new }
    ensures out_fault { result ≡ End.OutFault → Rose (K.faults out.old) (K.faults out.new) }
    ensures ended { (result ≡ End.BadImage fault) ⊎ ((result ≡ End.OutFault) ⊎ (result ≡ End.NoMemory)) }
{
    let Ok(line) = bad_image_line(alloc, &fault) else {
        return End::NoMemory;
    };
    match write_all(out, &line) {
        Ok(()) => End::BadImage(fault),
        Err(Failed) => End::OutFault,
    }
}

// Serves the script of a demo over a volume that was opened. The replies stay in memory; when the script's end is reached, the
// demo's line is written.
fn answer_demo<D: Disk, K: Sink>(
    alloc: Global,
    volume: &mut Volume,
    disk: &mut D,
    out: &mut K,
    script: &[u8],
    n: u32,
    safe: bool,
) -> End
    requires attached { IsTrue (D.attached disk.old) }
    requires fit { IsTrue volume.old.fit }
    requires stands { StandsFor D.Disk volume.old disk.old }
    requires settled { IsFalse (D.pending disk.old) }
    requires suits { SuitsMode safe volume.old }
    requires short { length script.now ≤ script_limit }
    requires own { script_for (Some n) script.now ≡ script.now }
    ensures promise { ForState (D.bytes disk.old) volume.old (λ kind s. (text : List ℕ) × Wrote (K.taken out.old) (K.taken out.new) text
        × EndsOver D.Disk disk.old disk.new (mode_of kind volume.old.read_only safe) false (Some n) s script.now text result) }
    ensures keeps { SessionKeeps D.Disk K.Sink safe (Spares volume.old.read_only (commands_in script.now)) disk.old disk.new out.old out.new result }
    ensures late { is_late_alone result ≡ true }
{
    let mut replies = Replies::new(alloc);
    match serve(alloc, volume, disk, &mut replies, script, safe) {
        Ok(tally) => tell_tally(alloc, out, n, tally, replies.text()),
        Err(LineFault::Disk) => End::DiskFault,
        // The sink of the replies fails only if no memory is found.
        Err(LineFault::Out) => End::NoMemory,
        Err(LineFault::NoMemory) => End::NoMemory,
    }
}

// Serves a script over a volume that was opened, unless the safe mode is asked for and doesn't serve it. A demo's replies stay in memory.
fn answer_lines<D: Disk, K: Sink>(
    alloc: Global,
    volume: &mut Volume,
    disk: &mut D,
    out: &mut K,
    script: &[u8],
    demo: Option<u32>,
    safe: bool,
) -> End
    requires attached { IsTrue (D.attached disk.old) }
    requires fit { IsTrue volume.old.fit }
    requires stands { StandsFor D.Disk volume.old disk.old }
    requires settled { IsFalse (D.pending disk.old) }
    requires short { length script.now ≤ script_limit }
    requires own { script_for demo script.now ≡ script.now }
    ensures promise { ForState (D.bytes disk.old) volume.old (λ kind s. (text : List ℕ) × Wrote (K.taken out.old) (K.taken out.new) text
        × EndsBySuiting D.Disk disk.old disk.new (mode_of kind volume.old.read_only safe) false demo s script.now text (is_unsuited safe s.view) result) }
    ensures keeps { SessionKeeps D.Disk K.Sink safe (Spares volume.old.read_only (commands_in script.now)) disk.old disk.new out.old out.new result }
    ensures late { is_late_alone result ≡ true }
{
    if is_unsuited(volume, safe) {
        return End::NotSafe;
    }
    match demo {
        None => end_of(serve(alloc, volume, disk, out, script, safe)),
        Some(n) => answer_demo(alloc, volume, disk, out, script, n, safe),
    }
}

// Opens the image of a disk that was just attached, and serves a script over it.
fn answer_image<D: Disk, K: Sink>(
    alloc: Global,
    disk: &mut D,
    out: &mut K,
    script: &[u8],
    read_only: bool,
    demo: Option<u32>,
    safe: bool,
) -> End
    requires fresh { IsFresh D.attached D.pending D.sector_size disk.old }
    requires short { length script.now ≤ script_limit }
    requires own { script_for demo script.now ≡ script.now }
    ensures promise { ForSome (D.bytes disk.old) (λ image. (text : List ℕ) × Wrote (K.taken out.old) (K.taken out.new) text
        × EndsByOpening D.Disk disk.old disk.new read_only safe false demo image script.now text (open_image image) result) }
    ensures keeps { SessionKeeps D.Disk K.Sink safe (Spares read_only (commands_in script.now)) disk.old disk.new out.old out.new result }
    ensures late { is_late_alone result ≡ true }
{
    // A law, for the proof alone: an image that is accepted opens as its own kind.
    fc_image::accepted();
    match Volume::mount(alloc, disk, read_only) {
        Ok(mut volume) => answer_lines(alloc, &mut volume, disk, out, script, demo, safe),
        Err(MountError::Image(fault)) => tell_fault(alloc, out, fault),
        Err(MountError::DiskFault) => End::DiskFault,
        Err(MountError::NoMemory) => End::NoMemory,
    }
}

/// Answers a script over the image that is asked for. Of a demo it is its own.
pub fn answer_script<D: Disk, K: Sink>(
    alloc: Global,
    asked: &Words,
    script: &[u8],
    disk: &mut D,
    out: &mut K,
) -> End
    requires short { length script.now ≤ script_limit }
    requires own { script_for (request_in asked.now).demo script.now ≡ script.now }
    ensures promise { let r = request_in asked.now in ForSome (D.gives disk.old) (λ gives. ForSome (D.bytes disk.old) (λ image.
        (text : List ℕ) × Wrote (K.taken out.old) (K.taken out.new) text
        × EndsByGiving D.Disk disk.old disk.new r image script.now text (gives r.image (blank_size r)) result)) }
    ensures keeps { RunKeeps D.Disk K.Sink (request_in asked.now) (Spares (request_in asked.now).read_only (commands_in script.now)) disk.old disk.new out.old out.new result }
    ensures late { (is_late_alone result ≡ true) ⊎ (result ≡ End.NoImage) }
{
    // Laws, for the proof alone: a fresh image is accepted, and one that is accepted opens as its own kind.
    fc_image::accepted();
    fc_format::opens();
    match attach_image(disk, asked.image.as_str(), asked.new) {
        Err(DiskFault) => End::DiskFault,
        Ok(false) => End::NoImage,
        Ok(true) => answer_image(
            alloc,
            disk,
            out,
            script,
            asked.read_only,
            asked.demo,
            asked.safe,
        ),
    }
}
