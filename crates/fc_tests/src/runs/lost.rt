// Lost space given back, and calls that fail meanwhile. The images were worked out by another program.
use super::{Disc, FRESH_D, FRESH_E, FRESH_F, Faults, NONE, copied, faulty, image_of, outcome};
use fc_device::MemoryDisk;
use std::alloc::Global;
use std::test::Fail;

// A fresh E, on which identifier 9, which nothing owns, has the 2048 bytes after the root.
const LOST: Disc = Disc {
    parts: &[&[
        (0, b"\xab\x28\x82"),
        (68, b"\x09\x80"),
        (1024, b"\xab\x28\x82"),
        (1092, b"\x09\x80"),
    ]],
    ..FRESH_E
};

// A fresh F, on which that identifier has the 4096 bytes in which the boot block lies.
const HELD: Disc = Disc {
    parts: &[&[
        (813_056, b"\xb5"),
        (813_120, b"\x09"),
        (817_152, b"\xb5"),
        (817_216, b"\x09"),
    ]],
    ..FRESH_F
};

// Discs, words, a script, and the status and the text that it has.
const STATED: &[(&Disc, &[&str], &[u8], u8, &[u8])] = &[
    (
        &LOST,
        &["disc"],
        b"check\nreclaim\ncheck\nfree\n",
        0,
        b"files 0 dirs 1 lost 2048 holes 1 free 813056 unsorted 0 parents 0\nok\nreclaimed 2048\nok\n\
            files 0 dirs 1 lost 0 holes 1 free 815104 unsorted 0 parents 0\nok\nfree 815104 815104\nok\n",
    ),
    (
        &HELD,
        &["disc"],
        b"reclaim\ncheck\n",
        0,
        b"reclaimed 0\nok\nfiles 0 dirs 1 lost 4096 holes 4 free 1624064 unsorted 0 parents 0\nok\n",
    ),
    (
        &LOST,
        &["--read-only", "disc"],
        b"reclaim\n",
        1,
        b"error 11 ReadOnly\n",
    ),
    (
        &FRESH_D,
        &["disc"],
        b"reclaim\n",
        1,
        b"error 21 NotNewMap\n",
    ),
    (
        &FRESH_D,
        &["--read-only", "disc"],
        b"reclaim\n",
        1,
        b"error 11 ReadOnly\n",
    ),
];

#[test]
fn lost_space_is_given_back(rt: HostRuntime) -> Result<(), Fail> {
    let alloc = rt.alloc();
    for (disc, words, script, wanted, text) in STATED {
        let (status, written, _) = outcome(alloc, words, image_of(alloc, disc)?, script)?;
        assert!(rt; status == *wanted);
        assert!(rt; written.as_slice() == *text);
    }
    let (_, _, left) = outcome(alloc, &["disc"], image_of(alloc, &LOST)?, b"reclaim\n")?;
    assert!(rt; left == image_of(alloc, &FRESH_E)?);
    Ok(())
}

// Whether a crash after any number of calls leaves the empty tree, with the last writes or without.
fn is_always_empty(alloc: Global, disk: &MemoryDisk) -> Result<bool, Fail> {
    for calls in 0..=6 {
        for kept in [[].as_slice(), &[true]] {
            let left = disk.stopped(alloc, calls, kept)?;
            let (_, text, _) = outcome(alloc, &["disc"], left, b"cat $\n")?;
            if text.as_slice() != b"ok\n".as_slice() {
                return Ok(false);
            }
        }
    }
    Ok(true)
}

// The zone is written once in each copy.
#[test]
fn writes_and_syncs_that_fail(rt: HostRuntime) -> Result<(), Fail> {
    let alloc = rt.alloc();
    let image = image_of(alloc, &LOST)?;
    for number in 1..=3 {
        for (write, sync) in [(number, 0), (0, number)] {
            let faults = Faults {
                write,
                sync,
                ..NONE
            };
            let script = b"reclaim\n";
            let (disk, status, _) = faulty(alloc, &["disc"], &image, script, faults)?;
            assert!(rt; status == if number <= 2 { 4 } else { 0 });
            assert!(rt; is_always_empty(alloc, &disk)?);
            let (_, text, _) = outcome(alloc, &["disc"], copied(alloc, disk.bytes())?, b"cat $\n")?;
            assert!(rt; text.as_slice() == b"ok\n".as_slice());
        }
    }
    Ok(())
}
