// Crashes and failing calls inside `compact`, over a disk in memory that tells what they may leave. The images were worked out by
// another program.
use super::{Disc, Faults, NONE, copied, faulty, image_of, outcome, part_of};
use crate::images::Part;
use fc_device::MemoryDisk;
use std::alloc::Global;
use std::test::Fail;

// What all discs of format E have that are made here: record, end of the zone, and root.
const ROOT_E: &[Part] = &[
    (
        3,
        b"\xff\n\x05\x02\x02\x0f\x07\x01\0\0\x01 \x05\x03\x02\0\0\0\x80\x0c",
    ),
    (64, b"\x02\0\0\x80"),
    (863, b"\x80"),
    (2049, b"NickA\r"),
    (4058, b"\x03\x02\0$\r"),
    (4080, b"$\r"),
    (4091, b"Nick"),
];

// Files `A` and `B` of 2048 bytes and `C` of 4096, one after the other.
const THREE_FILES: Disc = Disc {
    format: "",
    length: 819_200,
    map: 0,
    copy: 1024,
    parts: &[
        ROOT_E,
        &[
            (0, b"\xffX\x82"),
            (68, b"\x03\x80\x04\x80\x05\0\0\x80"),
            (2072, b"\x08\0\0\0\x03\0\x03B\r"),
            (2098, b"\x08\0\0\0\x04\0\x03C\r"),
            (2124, b"\x10\0\0\0\x05\0\x03"),
            (4095, b"\xff"),
            (4096, b"a0"),
            (5120, b"a1"),
            (6144, b"b0"),
            (7168, b"b1"),
            (8192, b"c0"),
            (9216, b"c1"),
            (10240, b"c2"),
            (11264, b"c3"),
        ],
    ],
};

// Files `A` of 2048 bytes and `B` of 4096.
const TWO_FILES: Disc = Disc {
    format: "",
    length: 819_200,
    map: 0,
    copy: 1024,
    parts: &[
        ROOT_E,
        &[
            (0, b"EH\x82"),
            (68, b"\x03\x80\x04\0\0\x80"),
            (2072, b"\x08\0\0\0\x03\0\x03B\r"),
            (2098, b"\x10\0\0\0\x04\0\x03"),
            (4095, b"\xae"),
            (4096, b"a0"),
            (5120, b"a1"),
            (6144, b"b0"),
            (7168, b"b1"),
            (8192, b"b2"),
            (9216, b"b3"),
        ],
    ],
};

// Two zones with sectors of 256 bytes. Zone 0 has a hole of 16 bits after those of the boot block, and the file `A` after it.
const TWO_ZONES: &[Part] = &[
    (3520, b"\x08\0\0\0\x0b\x05\0\0\0\x02 \0\0\x03\0\0\0\xbc\x01"),
    (3583, b"\xfa"),
    (4096, b"a0"),
    (4352, b"a1"),
    (4608, b"a2"),
    (
        49_153,
        b"h\x82\xff\x08\0\0\0\x0b\x05\0\0\0\x02 \0\0\x03\0\0\0\xbc\x01",
    ),
    (49_216, b"\x02"),
    (49_407, b"\x80~x\x80\0\x02\0\0\x80\x03"),
    (49_423, b"\x80"),
    (49_663, b"\x80"),
    (50_177, b"NickA\r"),
    (50_203, b"\0\x04\0\x03"),
    (52_187, b"\x03\0$\r"),
    (52_208, b"$\r"),
    (52_219, b"Nick"),
];

// The file's run has 40 bits.
const LONG_RUN: Disc = Disc {
    format: "",
    length: 113_664,
    map: 49_152,
    copy: 512,
    parts: &[
        TWO_ZONES,
        &[
            (4864, b"a3"),
            (5120, b"a4"),
            (49_152, b"\x17"),
            (49_229, b"\x808\x80\x04\0\0\0\x80"),
            (50_200, b"\x05"),
            (52_223, b"J"),
        ],
    ],
};

// The file's run has 24 bits.
const SHORT_RUN: Disc = Disc {
    format: "",
    length: 113_664,
    map: 49_152,
    copy: 512,
    parts: &[
        TWO_ZONES,
        &[
            (49_152, b"\xf8"),
            (49_229, b"\x80(\x80\x04\0\x80"),
            (50_200, b"\x03"),
            (52_223, b"*"),
        ],
    ],
};

// Ten zones with sectors of 256 bytes. The file `A` has runs of 16 bits in zones 4 to 7 and 0 to 3, in this order, and zone 9 has
// the only hole, of 160 bits. All else is lost space.
const TEN_ZONES: &[Part] = &[
    (3520, b"\x08\0\0\0\x0b\x05\0\0\0\n \0\0\x03\0\0\0\x9c\x09"),
    (3583, b"\xea"),
    (242_688, b"a0"),
    (242_944, b"a1"),
    (
        307_200,
        b"\xcf\0\x80\xff\x08\0\0\0\x0b\x05\0\0\0\n \0\0\x03\0\0\0\x9c\x09",
    ),
    (307_264, b"\x02"),
    (307_277, b"\x80\xbc\x82\x84\x03"),
    (307_455, b"\x80\xbe\0\x80\0\xbc\x82\x84\x03"),
    (307_711, b"\x80\xbe\0\x80\0\xbc\x82\x84\x03"),
    (307_967, b"\x80\xbe\0\x80\0\xbc\x82\x84\x03"),
    (308_223, b"\x80\xbe\0\x80\0\xbc\x82\x84\x03"),
    (308_479, b"\x80\xc0\0\x80\0\x02"),
    (308_503, b"\x80\x03"),
    (308_511, b"\x80\xbc\x82\x84\x03"),
    (308_735, b"\x80\xbe\0\x80\0\xbc\x82\x84\x03"),
    (308_991, b"\x80\xbe\0\x80\0\xbc\x82\x84\x03"),
    (309_247, b"\x80\x87\0\x80\0\x84\x03"),
    (309_503, b"\x80YX\x87\0\x84\x03"),
    (309_739, b"\x80"),
    (309_759, b"\x80"),
    (312_321, b"NickA\r"),
    (312_344, b"\x10\0\0\0\xbc\x02\x03"),
    (314_331, b"\x03\0$\r"),
    (314_352, b"$\r"),
    (314_363, b"Nick\xea"),
    (314_368, b"a2"),
    (314_624, b"a3"),
    (371_712, b"a4"),
    (371_968, b"a5"),
    (436_224, b"a6"),
    (436_480, b"a7"),
];

const EIGHT_RUNS: Disc = Disc {
    format: "",
    length: 629_760,
    map: 307_200,
    copy: 2560,
    parts: &[
        TEN_ZONES,
        &[
            (3584, b"a8"),
            (3840, b"a9"),
            (49_152, b"a10"),
            (49_408, b"a11"),
            (113_664, b"a12"),
            (113_920, b"a13"),
            (178_176, b"a14"),
            (178_432, b"a15"),
        ],
    ],
};

// A ninth run, in zone 8.
const NINE_RUNS: Disc = Disc {
    format: "",
    length: 629_760,
    map: 307_200,
    copy: 2560,
    parts: &[
        TEN_ZONES,
        &[
            (309_247, b"\x80\xbe\0\x80\0\xbc\x82\x84\x03"),
            (312_344, b"\x12"),
            (314_367, b"\xca"),
            (500_736, b"a8"),
            (500_992, b"a9"),
            (3584, b"a10"),
            (3840, b"a11"),
            (49_152, b"a12"),
            (49_408, b"a13"),
            (113_664, b"a14"),
            (113_920, b"a15"),
            (178_176, b"a16"),
            (178_432, b"a17"),
        ],
    ],
};

// The first copy of the map of a disc on an image.
fn copy_of(alloc: Global, disc: &Disc, image: &[u8]) -> Result<Vec<u8>, Fail> {
    part_of(alloc, image, disc.map, disc.copy)
}

// What is asked to see the tree: the files, and the bytes of each.
const TREE: &[u8] = b"cat $\ndigest $.A\ndigest $.B\ndigest $.C\n";

// What an image answers to that.
fn tree_of(alloc: Global, image: Vec<u8>) -> Result<Vec<u8>, Fail> {
    let (_, text, _) = outcome(alloc, &["disc"], image, TREE)?;
    Ok(text)
}

// The disk after a run of `compact`, in which at most one write and one sync fail, and the status.
fn compacted(
    alloc: Global,
    image: Vec<u8>,
    write: u64,
    sync: u64,
) -> Result<(MemoryDisk, u8), Fail> {
    let faults = Faults {
        write,
        sync,
        ..NONE
    };
    let (disk, status, _) = faulty(alloc, &["disc"], &image, b"compact\n", faults)?;
    Ok((disk, status))
}

// As many calls as a run here may make.
const ALL_CALLS: usize = 48;

const ALL: &[bool] = &[true; 16];

// Each choice of two writes, and every second one of more.
const KEPT: [&[bool]; 5] = [
    &[],
    &[true],
    &[false, true],
    ALL,
    &[
        true, false, true, false, true, false, true, false, true, false, true, false, true, false,
        true,
    ],
];

// Whether the tree is there after a crash after so many calls, whatever was kept.
fn is_kept(alloc: Global, disk: &MemoryDisk, calls: usize, tree: &[u8]) -> Result<bool, Fail> {
    for kept in KEPT {
        let left = disk.stopped(alloc, calls, kept)?;
        if tree_of(alloc, left)?.as_slice() != tree {
            return Ok(false);
        }
    }
    Ok(true)
}

// Whether the tree is there after a crash at any moment.
fn is_always_kept(alloc: Global, disk: &MemoryDisk, tree: &[u8]) -> Result<bool, Fail> {
    for calls in 0..=ALL_CALLS {
        if !is_kept(alloc, disk, calls, tree)? {
            return Ok(false);
        }
    }
    Ok(true)
}

// Whether at most two writes are ever open, so that `KEPT` has each choice.
fn are_two_open(alloc: Global, disk: &MemoryDisk) -> Result<bool, Fail> {
    for calls in 0..=ALL_CALLS {
        let two = disk.stopped(alloc, calls, &[true, true])?;
        if two != disk.stopped(alloc, calls, ALL)? {
            return Ok(false);
        }
    }
    Ok(true)
}

// The places of zone 0's first hole in the first copy of the map, one after another.
fn places_of(alloc: Global, disc: &Disc, disk: &MemoryDisk) -> Result<Vec<u16>, Fail> {
    let mut places = Vec::new(alloc);
    let mut last = 0;
    for calls in 0..=ALL_CALLS {
        let image = disk.stopped(alloc, calls, ALL)?;
        let mut map = image.iter().skip(disc.map).skip(1);
        let low = map.next().copied().unwrap_or(0);
        let high = map.next().copied().unwrap_or(0);
        let place = u16::from_le_bytes([low, high & 127]).saturating_add(8);
        if place != last {
            places.push(place)?;
            last = place;
        }
    }
    Ok(places)
}

#[test]
fn files_slide_after_one_is_deleted(rt: HostRuntime) -> Result<(), Fail> {
    let alloc = rt.alloc();
    let script = b"delete $.A\nfree\ncompact\nfree\n".as_slice();
    let discs: [(&Disc, &[u8], &[u16]); 2] = [
        (
            &THREE_FILES,
            b"ok\nfree 808960 806912\nok\nok\nfree 808960 808960\nok\n",
            &[544, 560, 576, 592],
        ),
        (
            &TWO_FILES,
            b"ok\nfree 811008 808960\nok\nok\nfree 811008 811008\nok\n",
            &[544, 560, 576],
        ),
    ];
    for (disc, wanted, places) in discs {
        let image = image_of(alloc, disc)?;
        let (status, text, end) = outcome(alloc, &["disc"], copied(alloc, &image)?, script)?;
        assert!(rt; status == 0);
        assert!(rt; text.as_slice() == wanted);
        let (_, _, deleted) = outcome(alloc, &["disc"], image, b"delete $.A\n")?;
        let tree = tree_of(alloc, copied(alloc, &deleted)?)?;
        assert!(rt; tree_of(alloc, end)? == tree);
        let (disk, status) = compacted(alloc, deleted, 0, 0)?;
        assert!(rt; status == 0);
        assert!(rt; places_of(alloc, disc, &disk)?.as_slice() == places);
    }
    Ok(())
}

#[test]
fn a_run_slides_in_pieces(rt: HostRuntime) -> Result<(), Fail> {
    let alloc = rt.alloc();
    let image = image_of(alloc, &LONG_RUN)?;
    let tree = tree_of(alloc, copied(alloc, &image)?)?;
    let wanted = b"A 00000003 00000000 00000000 1280\nok\n\
        bab3bde7460934ae4ed0737cd181f145ba5941fddbd1e06f68806b222974491a\nok\n\
        error 3 NotFound\nerror 3 NotFound\n"
        .as_slice();
    assert!(rt; tree.as_slice() == wanted);
    let (disk, status) = compacted(alloc, image, 0, 0)?;
    assert!(rt; status == 0);
    // Pieces of 16, 8 and 16 bits, by three commits.
    let places = places_of(alloc, &LONG_RUN, &disk)?;
    assert!(rt; places.as_slice() == [624, 640, 648, 664].as_slice());
    assert!(rt; are_two_open(alloc, &disk)?);
    assert!(rt; is_always_kept(alloc, &disk, &tree)?);
    Ok(())
}

#[test]
fn a_run_that_cannot_be_cut_stays(rt: HostRuntime) -> Result<(), Fail> {
    let alloc = rt.alloc();
    let image = image_of(alloc, &SHORT_RUN)?;
    let script = b"free\ncompact\nfree\n";
    let (status, text, left) = outcome(alloc, &["disc"], copied(alloc, &image)?, script)?;
    assert!(rt; status == 0);
    let wanted = b"free 106240 61440\nok\nok\nfree 106240 61440\nok\n".as_slice();
    assert!(rt; text.as_slice() == wanted);
    assert!(rt; left == image);
    Ok(())
}

#[test]
fn runs_in_nine_zones_stay(rt: HostRuntime) -> Result<(), Fail> {
    let alloc = rt.alloc();
    let image = image_of(alloc, &NINE_RUNS)?;
    let (status, text, left) = outcome(
        alloc,
        &["disc"],
        copied(alloc, &image)?,
        b"digest $.A\ncompact\n",
    )?;
    assert!(rt; status == 0);
    let wanted =
        b"6052cb24ffe9c18b05aac8a2bb5858641b539bc98fc6ac2e93c3dc81b97b6aff\nok\nok\n".as_slice();
    assert!(rt; text.as_slice() == wanted);
    assert!(rt; left == image);
    Ok(())
}

// What each zone of the ten has in the CrossCheck of one map and not in that of the other.
fn deltas_of(alloc: Global, old: &[u8], new: &[u8]) -> Result<Vec<u8>, Fail> {
    let mut deltas = Vec::new(alloc);
    let pairs = old
        .iter()
        .skip(3)
        .step_by(256)
        .zip(new.iter().skip(3).step_by(256));
    for (was, is) in pairs {
        deltas.push(*was ^ *is)?;
    }
    Ok(deltas)
}

#[test]
fn runs_in_eight_zones_are_joined(rt: HostRuntime) -> Result<(), Fail> {
    let alloc = rt.alloc();
    let image = image_of(alloc, &EIGHT_RUNS)?;
    let script = b"digest $.A\ncheck\ncompact\ndigest $.A\ncheck\n".as_slice();
    let (status, text, left) = outcome(alloc, &["disc"], copied(alloc, &image)?, script)?;
    assert!(rt; status == 0);
    let wanted = b"d6c402a47fa037b445b0e630926347ae937d5270bd21cb88a2166bc0c3ba1fea\nok\n\
        files 1 dirs 1 lost 609792 holes 1 free 5120 unsorted 0 parents 0\nok\nok\n\
        d6c402a47fa037b445b0e630926347ae937d5270bd21cb88a2166bc0c3ba1fea\nok\n\
        files 1 dirs 1 lost 609792 holes 9 free 5120 unsorted 0 parents 0\nok\n"
        .as_slice();
    assert!(rt; text.as_slice() == wanted);
    // One commit of nine zones.
    let old = copy_of(alloc, &EIGHT_RUNS, &image)?;
    let new = copy_of(alloc, &EIGHT_RUNS, &left)?;
    let deltas = deltas_of(alloc, &old, &new)?;
    assert!(rt; deltas.as_slice() == [1, 2, 4, 8, 16, 32, 64, 128, 0, 255].as_slice());
    // The run of 128 bits in zone 9.
    let run = new.iter().skip(2540).take(16);
    assert!(rt; run.eq(b"\xbc\x02\0\0\0\0\0\0\0\0\0\0\0\0\0\x80".iter()));
    let tree = tree_of(alloc, copied(alloc, &image)?)?;
    let (disk, status) = compacted(alloc, image, 0, 0)?;
    assert!(rt; status == 0);
    assert!(rt; disk.bytes() == left.as_slice());
    assert!(rt; is_always_kept(alloc, &disk, &tree)?);
    Ok(())
}

#[test]
fn compactions_that_fail(rt: HostRuntime) -> Result<(), Fail> {
    let alloc = rt.alloc();
    let image = image_of(alloc, &LONG_RUN)?;
    let tree = tree_of(alloc, copied(alloc, &image)?)?;
    for number in 1..20 {
        for (write, sync, last) in [(number, 0, 13), (0, number, 11)] {
            let (disk, status) = compacted(alloc, copied(alloc, &image)?, write, sync)?;
            assert!(rt; status == if number <= last { 4 } else { 0 });
            assert!(rt; is_kept(alloc, &disk, ALL_CALLS, &tree)?);
            let read = copied(alloc, disk.bytes())?;
            assert!(rt; tree_of(alloc, read)? == tree);
        }
    }
    Ok(())
}
