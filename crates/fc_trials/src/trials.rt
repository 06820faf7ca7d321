// Scripts over discs of each kind of map.
ghost use Rattle.std.specs.Prelude.{OnOk};
ghost use Rattle.fc_trials.specs.Ready.{IsReady};

mod growth;
mod jobs;
mod room;
mod sharing;

use crate::discs::{Disc, Step, disc_after};
use crate::lines::{Line, answer, is_mark, lines_of, mounted, parts_of};
use crate::runs::{by_run, copied, disk_of};
use crate::trees::{differences, objects_on};
use fc_commands::Holdings;
use fc_device::{Disk, PlainDisk};
use std::alloc::Global;
use std::test::Fail;

// Discs after some steps, which are all done.
#[derive(Clone, Copy)]
pub struct Start {
    pub discs: &'static [Disc],
    pub steps: &'static [Step],
    pub read_only: bool,
}

// Lines, and what they make of the tree: the objects that went, behind `-`, and those that came, behind `+`.
pub type Script = (&'static str, &'static str);

// A disc before a script: its bytes, its objects, and how much space is lost.
#[derive(Drop)]
struct Before {
    name: &'static str,
    read_only: bool,
    image: Vec<u8>,
    objects: Vec<String>,
    lost: String,
}

// What goes wrong on a disc.
fn failure(alloc: Global, before: &Before, why: &str) -> Result<(), Fail> {
    let name = before.name;
    Err(format!(in alloc; "{name}: {why}")?.into())
}

// A line gives its reply.
fn expect<D: Disk>(
    alloc: Global,
    before: &Before,
    disk: &mut D,
    holdings: &mut Holdings,
    line: &Line,
) -> Result<(), Fail>
    requires { IsReady D.Disk holdings.old disk.old }
    ensures { OnOk result (IsReady D.Disk holdings.new disk.new) }
{
    let told = answer(alloc, disk, holdings, before.read_only, line)?;
    if told.as_str() != line.reply {
        let command = line.command;
        let why = format!(in alloc; "{command}: {told}")?;
        return failure(alloc, before, &why);
    }
    Ok(())
}

// Each line gives its reply over holdings that are kept.
fn expect_all<D: Disk>(
    alloc: Global,
    before: &Before,
    disk: &mut D,
    holdings: &mut Holdings,
    lines: &[Line],
) -> Result<(), Fail>
    requires { IsReady D.Disk holdings.old disk.old }
{
    for line in lines {
        expect(alloc, before, disk, holdings, line)?;
    }
    Ok(())
}

// The disk after these lines, over holdings that are kept.
fn left_by_one(alloc: Global, before: &Before, lines: &[Line]) -> Result<PlainDisk, Fail> {
    let mut disk = disk_of(alloc, &before.image, 0)?;
    let mut holdings = mounted(alloc, &mut disk, before.read_only)?;
    expect_all(alloc, before, &mut disk, &mut holdings, lines)?;
    Ok(disk)
}

// The disk after these lines, each over a new opening.
fn left_by_each(alloc: Global, before: &Before, lines: &[Line]) -> Result<PlainDisk, Fail> {
    let mut disk = disk_of(alloc, &before.image, 0)?;
    for line in lines {
        let mut holdings = mounted(alloc, &mut disk, before.read_only)?;
        expect(alloc, before, &mut disk, &mut holdings, line)?;
    }
    Ok(disk)
}

// A run of these lines gives the same replies and leaves the same image.
fn try_run(alloc: Global, before: &Before, lines: &[Line], left: &[u8]) -> Result<(), Fail> {
    let mut script = String::new(alloc);
    for line in lines {
        let command = line.command;
        script.push_str(&format!(in alloc; "{command}\n")?)?;
    }
    let words: &[&str] = if before.read_only {
        &["--read-only", "disc"]
    } else {
        &["disc"]
    };
    let mut disk = disk_of(alloc, &before.image, 0)?;
    let told = by_run(alloc, words, &mut disk, &script)?;
    let mut replies = told.lines();
    for line in lines {
        if !replies.next().unwrap_or("?").ends_with(line.reply) {
            return failure(alloc, before, &told);
        }
    }
    if disk.bytes() != left {
        return failure(alloc, before, "another image of a run");
    }
    Ok(())
}

// The lost space on a disc, as `check` tells it.
fn lost_on(alloc: Global, disk: &mut PlainDisk) -> Result<String, Fail> {
    let counts = by_run(alloc, &["--read-only", "disc"], disk, "check")?;
    let lost = counts.split(' ').nth(5).unwrap_or("?");
    Ok(String::from_str(alloc, lost)?)
}

// What is left has no more lost space, and the tree differs so.
fn try_left(
    alloc: Global,
    before: &Before,
    disk: &mut PlainDisk,
    tree: &'static str,
) -> Result<(), Fail> {
    if lost_on(alloc, disk)? != before.lost {
        return failure(alloc, before, "lost space");
    }
    let objects = objects_on(alloc, disk)?;
    let told = differences(alloc, &before.objects, &objects)?;
    let mut expected = String::new(alloc);
    for line in parts_of(alloc, tree)? {
        expected.push_str(line)?;
        expected.push_str("\n")?;
    }
    if told != expected {
        return failure(alloc, before, &told);
    }
    Ok(())
}

// A script over a disc.
fn try_script(alloc: Global, before: &Before, script: &Script) -> Result<(), Fail> {
    let (text, tree) = *script;
    let lines = lines_of(alloc, text)?;
    let mut left = left_by_one(alloc, before, &lines)?;
    if left_by_each(alloc, before, &lines)?.bytes() != left.bytes() {
        return failure(alloc, before, "another image by new openings");
    }
    if !lines.iter().any(is_mark) {
        try_run(alloc, before, &lines, left.bytes())?;
    }
    try_left(alloc, before, &mut left, tree)
}

// A disc after its steps.
fn disc_before(alloc: Global, start: &Start, disc: &Disc) -> Result<Before, Fail> {
    let mut disk = disc_after(alloc, disc, start.steps)?;
    Ok(Before {
        name: disc.name,
        read_only: start.read_only,
        objects: objects_on(alloc, &mut disk)?,
        lost: lost_on(alloc, &mut disk)?,
        image: copied(alloc, disk.bytes())?,
    })
}

// Scripts, each over each of the discs.
pub fn try_all(alloc: Global, start: &Start, scripts: &[Script]) -> Result<(), Fail> {
    for disc in start.discs {
        let before = disc_before(alloc, start, disc)?;
        for script in scripts {
            try_script(alloc, &before, script)?;
        }
    }
    Ok(())
}
