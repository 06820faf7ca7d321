// Runs of a zone read and edited: a zone of 1024 bytes, full of the shortest runs.
ghost use Rattle.fc_zone.specs.Zone.{IsShapeOf, IsZone};

use crate::timing::print_rate;
use fc_zone::{
    Cursor, Run, RunKind, ZoneShape, blank, check_zone, first, label, next, release, split,
};
use std::alloc::Global;
use std::io;
use std::io::Print;
use std::rt::Clock;
use std::time::Instant;

const READ_PASSES: u32 = 2000;

const EDIT_PASSES: u32 = 20;

// Cuts a zone's one hole into holes of the least length.
fn cut_up(b: &mut [u8], shape: &ZoneShape)
    requires shape { IsShapeOf b.old shape.now }
    requires zone { IsZone shape.now b.old }
    ensures { IsZone shape.now b.new }
{
    let mut at = first(b, shape);
    while let Some(run) = at {
        if run.len < shape.min || run.len - shape.min < shape.min {
            return;
        }
        split(b, shape, run.start, shape.min);
        at = next(
            b,
            shape,
            Run {
                start: run.start,
                len: shape.min,
                kind: run.kind,
            },
        );
    }
}

// Gives every run of an identifier back, and says how many.
fn release_all(b: &mut [u8], shape: &ZoneShape) -> u64
    requires shape { IsShapeOf b.old shape.now }
    requires zone { IsZone shape.now b.old }
    ensures { IsZone shape.now b.new }
{
    let mut count = 0u64;
    let mut cursor = Cursor::start(b, shape);
    while let Some(run) = cursor.next(b, shape) {
        release(b, shape, run.start);
        count = count.saturating_add(1);
    }
    count
}

// Makes every hole a run of identifier 3, and says how many.
fn label_all(b: &mut [u8], shape: &ZoneShape) -> u64
    requires shape { IsShapeOf b.old shape.now }
    requires zone { IsZone shape.now b.old }
    ensures { IsZone shape.now b.new }
{
    let mut count = 0u64;
    let mut cursor = Cursor::start(b, shape);
    while let Some(run) = cursor.next(b, shape) {
        if let RunKind::Hole = run.kind {
            label(b, shape, run.start, 3);
            count = count.saturating_add(1);
        }
    }
    count
}

// The runs of a zone, counted in one walk.
fn count_runs(b: &[u8], shape: &ZoneShape) -> u64
    requires shape { IsShapeOf b.now shape.now }
    requires zone { IsZone shape.now b.now }
{
    let mut count = 0u64;
    let mut cursor = Cursor::start(b, shape);
    while let Some(_) = cursor.next(b, shape) {
        count = count.saturating_add(1);
    }
    count
}

fn read_all(b: &[u8], shape: &ZoneShape) -> u64
    requires shape { IsShapeOf b.now shape.now }
    requires zone { IsZone shape.now b.now }
{
    let mut count = 0u64;
    for _ in 0..READ_PASSES {
        count = count.saturating_add(count_runs(b, shape));
    }
    count
}

fn check_all(b: &[u8], shape: &ZoneShape) -> u64
    requires { IsShapeOf b.now shape.now }
{
    let mut right = 0u64;
    for _ in 0..READ_PASSES {
        right = right.saturating_add(u64::from(check_zone(b, shape).is_ok()));
    }
    right
}

fn edit_all(b: &mut [u8], shape: &ZoneShape) -> u64
    requires shape { IsShapeOf b.old shape.now }
    requires zone { IsZone shape.now b.old }
    ensures { IsZone shape.now b.new }
{
    let mut count = 0u64;
    for _ in 0..EDIT_PASSES {
        count = count.saturating_add(label_all(b, shape));
        count = count.saturating_add(release_all(b, shape));
    }
    count
}

pub fn run<R: Print + Clock>(rt: &R, _alloc: Global) -> io::Result<()> {
    let shape = ZoneShape {
        zone: 1,
        first: 32,
        end: 8192,
        base: 0,
        idlen: 15,
        q: 1,
        min: 16,
    };
    let mut sector = [0u8; 1024];
    blank(&mut sector, &shape);
    cut_up(&mut sector, &shape);
    let start = Instant::now(rt)?;
    let read = read_all(&sector, &shape);
    print_rate(rt, "runs read", read, "runs", start)?;
    let start = Instant::now(rt)?;
    let checked = check_all(&sector, &shape);
    print_rate(
        rt,
        "zones checked",
        checked.saturating_mul(1024),
        "bytes",
        start,
    )?;
    let start = Instant::now(rt)?;
    let edits = edit_all(&mut sector, &shape);
    print_rate(rt, "runs labelled and released", edits, "edits", start)
}
