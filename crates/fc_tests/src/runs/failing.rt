// Whole runs in which a call of the disk, of the source or of the sink fails.
use super::{Disc, FRESH_E, FRESH_L, Faults, HELLO, NONE, faulty, image_of};
use std::alloc::Global;
use std::test::Fail;

// Scripts over discs, and how many reads, writes and syncs they make at least.
const STATED: &[(&Disc, &[u8], [u64; 3])] = &[
    (
        &HELLO,
        b"cat $\nload $.hello\ndigest $.hello\nfree\n",
        [6, 0, 0],
    ),
    (
        &FRESH_E,
        b"create $.A 00000000 00000000 2048\ncreate $.B 00000000 00000000 2048\n\
            create $.C 00000000 00000000 4096\ndelete $.A\nfree\ncompact\nfree\n",
        [6, 20, 10],
    ),
    (
        &FRESH_L,
        b"save $.A 00000000 00000000 4142\ncdir $.D\nrename $.A $.D.B\nsave $.D.B 00000000 00000000 43\n\
            free\ndelete $.D.B\ncompact\nfree\n",
        [6, 20, 10],
    ),
];

// The call of a number fails, by the place of its kind.
fn fault_of(kind: usize, number: u64) -> Faults {
    match kind {
        0 => Faults {
            read: number,
            ..NONE
        },
        1 => Faults {
            write: number,
            ..NONE
        },
        _ => Faults {
            sync: number,
            ..NONE
        },
    }
}

// The first number of a kind at which a script makes no call any more. 0 if a call before, if it fails, doesn't end the run with
// a part of the text.
fn failing(
    alloc: Global,
    image: &[u8],
    script: &[u8],
    whole: &[u8],
    kind: usize,
) -> Result<u64, Fail> {
    for number in 1..1000 {
        let (_, status, part) = faulty(alloc, &["disc"], image, script, fault_of(kind, number))?;
        if status == 0 {
            return Ok(number);
        }
        if status != 4 || !whole.starts_with(&part) {
            return Ok(0);
        }
    }
    Ok(0)
}

#[test]
fn calls_that_fail(rt: HostRuntime) -> Result<(), Fail> {
    let alloc = rt.alloc();
    for (disc, script, least) in STATED {
        let image = image_of(alloc, disc)?;
        let (_, status, whole) = faulty(alloc, &["disc"], &image, script, NONE)?;
        assert!(rt; status == 0);
        for (kind, least) in least.iter().enumerate() {
            assert!(rt; failing(alloc, &image, script, &whole, kind)? > *least);
        }
        let source = Faults { source: 2, ..NONE };
        let (disk, status, part) = faulty(alloc, &["disc"], &image, script, source)?;
        assert!(rt; status == 5 && part.is_empty() && disk.bytes() == image.as_slice());
        let sink = Faults { sink: 2, ..NONE };
        let (_, status, part) = faulty(alloc, &["disc"], &image, script, sink)?;
        assert!(rt; status == 6 && whole.starts_with(&part));
    }
    // Lines after one that fails aren't run.
    let script = b"free\nsave $.A 00000000 00000000 4142\nfree\n";
    let write = fault_of(1, 3);
    let (_, status, part) = faulty(alloc, &["disc"], &image_of(alloc, &HELLO)?, script, write)?;
    assert!(rt; status == 4);
    assert!(rt; part.as_slice() == b"free 813056 813056\nok\n".as_slice());
    Ok(())
}

// A fresh E has 3,200 sectors of 256 bytes.
#[test]
fn fresh_volumes_that_are_not_written(rt: HostRuntime) -> Result<(), Fail> {
    let alloc = rt.alloc();
    for (write, sync, wanted) in [(0, 0, 0), (1, 0, 4), (3200, 0, 4), (3201, 0, 0), (0, 1, 4)] {
        let faults = Faults {
            write,
            sync,
            ..NONE
        };
        let (_, status, _) = faulty(alloc, &["--new", "E", "disc"], &[], b"free\n", faults)?;
        assert!(rt; status == wanted);
    }
    Ok(())
}
