// Whole runs over disks in memory: what is seen from outside, and that calls succeed. Images were worked out by other
// programs, and answers by hand.
mod big_directories;
mod changes;
mod crashes;
mod failing;
mod host_files;
mod identifiers;
mod lost;
mod old_maps;

use crate::images::{Part, put, put_at};
use fc_device::{Failing, ListSink, ListSource, MemoryDisk, PlainDisk};
use fc_shell::run;
use std::alloc::Global;
use std::test::Fail;

// The bytes in the longest disc that is made here.
const FRESH: usize = 1_638_400;

// A disc: a fresh volume of a format, or so many bytes 0 if there is none, with parts put over it. The copies of its map, of so
// many bytes, lie one after the other; an image has the first alone among its parts. There is none on a disc with an old map.
#[derive(Drop)]
struct Disc {
    format: &'static str,
    length: usize,
    map: usize,
    copy: usize,
    parts: &'static [&'static [Part]],
}

const FRESH_E: Disc = Disc {
    format: "E",
    length: 0,
    map: 0,
    copy: 1024,
    parts: &[],
};

const FRESH_F: Disc = Disc {
    format: "F",
    length: 0,
    map: 813_056,
    copy: 4096,
    parts: &[],
};

const FRESH_E_PLUS: Disc = Disc {
    format: "E+",
    ..FRESH_E
};

const FRESH_F_PLUS: Disc = Disc {
    format: "F+",
    ..FRESH_F
};

const FRESH_D: Disc = Disc {
    format: "D",
    length: 0,
    map: 0,
    copy: 0,
    parts: &[],
};

const FRESH_L: Disc = Disc {
    format: "L",
    ..FRESH_D
};

// A disc of format E whose only file is `Hello`, of five bytes. The second copy of its map is 0, and doesn't count.
const HELLO: Disc = Disc {
    format: "",
    length: 819_200,
    map: 0,
    copy: 0,
    parts: &[&[
        (
            0,
            b"\xa1\x28\x82\xff\x0a\x05\x02\x02\x0f\x07\x01\0\0\x01\x20\x05\x03\x02\0\0\0\x80\x0c",
        ),
        (64, b"\x02\0\0\x80\x03\x80"),
        (863, b"\x80"),
        (2049, b"NickHello\r"),
        (2071, b"\x05\0\0\0\0\x03\0\x03"),
        (4058, b"\x03\x02\0$\r"),
        (4080, b"$\r\0\0\0\0\0\0\0\0\0Nick\xf2Hello"),
    ]],
};

// A fresh volume.
fn fresh(alloc: Global, format: &str) -> Result<Vec<u8>, Fail> {
    let words = ["--new", format, "disc"];
    let (_, _, image) = outcome(alloc, words.as_slice(), Vec::new(alloc), b"")?;
    Ok(image)
}

// So many bytes of an image from a place on.
fn part_of(alloc: Global, image: &[u8], at: usize, length: usize) -> Result<Vec<u8>, Fail> {
    let mut part = Vec::new(alloc);
    for byte in image.iter().skip(at).take(length) {
        part.push(*byte)?;
    }
    Ok(part)
}

// The image of a disc.
fn image_of(alloc: Global, disc: &Disc) -> Result<Vec<u8>, Fail> {
    let is_fresh = !disc.format.is_empty();
    let mut image = if is_fresh {
        fresh(alloc, disc.format)?
    } else {
        vec![in alloc; 0; disc.length]?
    };
    for parts in disc.parts {
        put(&mut image, parts);
    }
    if !is_fresh {
        let map = part_of(alloc, &image, disc.map, disc.copy)?;
        put_at(&mut image, disc.map.saturating_add(disc.copy), &map);
    }
    Ok(image)
}

// The image with `Hello`, some of its bytes changed.
fn hello(alloc: Global, others: &[(usize, u8)]) -> Result<Vec<u8>, Fail> {
    let mut image = image_of(alloc, &HELLO)?;
    change(&mut image, others);
    Ok(image)
}

fn change(bytes: &mut Vec<u8>, others: &[(usize, u8)]) {
    for (at, byte) in others {
        if let Some(place) = bytes.get_mut(*at) {
            *place = *byte;
        }
    }
}

fn texts(alloc: Global, words: &[&str]) -> Result<Vec<String>, Fail> {
    let mut list = Vec::new(alloc);
    for word in words {
        list.push(String::from_str(alloc, word)?)?;
    }
    Ok(list)
}

fn copied(alloc: Global, bytes: &[u8]) -> Result<Vec<u8>, Fail> {
    let mut copy = Vec::new(alloc);
    copy.extend_from_slice(bytes)?;
    Ok(copy)
}

// The status and the text of a run over a disk named `disc`, and the image that it leaves.
fn outcome(
    alloc: Global,
    words: &[&str],
    image: Vec<u8>,
    script: &[u8],
) -> Result<(u8, Vec<u8>, Vec<u8>), Fail> {
    let mut disk = PlainDisk::new(String::from_str(alloc, "disc")?, image, FRESH)?;
    let mut source = ListSource::new(copied(alloc, script)?, Vec::new(alloc), 1000);
    let mut sink = ListSink::new(alloc, Vec::new(alloc), 5000)?;
    let words = texts(alloc, words)?;
    let end = run(alloc, &words, &mut disk, &mut source, &mut sink);
    Ok((
        end.status(),
        copied(alloc, sink.bytes())?,
        copied(alloc, disk.bytes())?,
    ))
}

// Words that make a fresh volume, a script, and its text.
const FRESH_VOLUMES: &[(&[&str], &[u8], &[u8])] = &[
    (
        &["--new", "E", "disc"],
        b"free\n",
        b"free 815104 815104\nok\n",
    ),
    (
        &["disc", "--new=F"],
        b"free\n",
        b"free 1624064 421888\nok\n",
    ),
    (
        &["--new", "D", "disc"],
        b"free\n",
        b"free 816128 816128\nok\n",
    ),
    (
        &["--new", "L", "disc"],
        b"free",
        b"free 653568 653568\nok\n",
    ),
    (
        &["--new", "E+", "disc"],
        b"free",
        b"free 815104 815104\nok\n",
    ),
    (
        &["--new", "F+", "disc"],
        b"free",
        b"free 1624064 421888\nok\n",
    ),
    (
        &["--new", "E", "disc"],
        b"check\n",
        b"files 0 dirs 1 lost 0 holes 1 free 815104 unsorted 0 parents 0\nok\n",
    ),
    (
        &["--read-only", "--new", "D", "disc"],
        b"cat $\n\n# end",
        b"ok\n",
    ),
];

#[test]
fn fresh_volumes(rt: HostRuntime) -> Result<(), Fail> {
    let alloc = rt.alloc();
    for (words, script, text) in FRESH_VOLUMES {
        let (status, written, _) = outcome(alloc, words, Vec::new(alloc), script)?;
        assert!(rt; status == 0);
        assert!(rt; written.as_slice() == *text);
    }
    Ok(())
}

// Words with `--safe` that make a fresh volume, a script, and its status and text. The safe mode serves big directories alone.
const SAFE_VOLUMES: &[(&[&str], &[u8], u8, &[u8])] = &[
    (
        &["--safe", "--new", "E+", "disc"],
        b"free\ndelete $.None\ncompact\n",
        1,
        b"free 815104 815104\nok\nerror 3 NotFound\nok\n",
    ),
    (
        &["--safe", "--read-only", "--new", "F+", "disc"],
        b"delete $\ncat $",
        1,
        b"error 7 RootRefused\nok\n",
    ),
    (&["--safe", "--new", "E", "disc"], b"free\n", 10, b""),
    (&["--safe", "--new", "L", "disc"], b"free\n", 10, b""),
];

#[test]
fn safe_volumes(rt: HostRuntime) -> Result<(), Fail> {
    let alloc = rt.alloc();
    for (words, script, wanted, text) in SAFE_VOLUMES {
        let (status, written, _) = outcome(alloc, words, Vec::new(alloc), script)?;
        assert!(rt; status == *wanted);
        assert!(rt; written.as_slice() == *text);
    }
    Ok(())
}

// Words, a script, and the status and the text that it has over the image with `Hello`, which stays as it is.
const ONE_FILE: &[(&[&str], &[u8], u8, &[u8])] = &[
    (&["disc"], b"load $.hello\n", 0, b"48656c6c6f\nok\n"),
    (&["disc"], b"load $.None", 1, b"error 3 NotFound\n"),
    (
        &["--read-only", "disc"],
        b"cat $\nfree\nload $.Hello.X\n",
        1,
        b"Hello 00000003 00000000 00000000 5\nok\nfree 813056 813056\nok\nerror 4 NotDirectory\n",
    ),
    (
        &["disc"],
        b"digest $.Hello\n",
        0,
        b"185f8db32271fe25f561a6fc938b2e264306ec304eda518007d1764826381969\nok\n",
    ),
    (
        &["disc"],
        b"lod $\nload $\n#\n\nload $.a:b\n",
        1,
        b"error 1 BadCommand\nerror 5 IsDirectory\nerror 2 BadName\n",
    ),
    (&["disc"], b"", 0, b""),
    (&["other"], b"load $.hello\n", 12, b""),
    (&[], b"load $.hello\n", 2, b""),
    (&["--help", "disc"], b"load $.hello\n", 2, b""),
    (&["--safe", "disc"], b"load $.hello\n", 10, b""),
    (
        &["--demo", "1", "--safe", "disc"],
        b"load $.hello\n",
        10,
        b"",
    ),
    (
        &["--read-only", "--demo", "1", "disc"],
        b"load $.hello\n",
        1,
        b"demo 1 commands 11 refused 9 sha256 9dd5e13ddca647ed805e3182b8f7470e33637ab0f56d72768e535c6c93a9025e\n",
    ),
    (
        &["disc"],
        b"save $.A.B 00000000 00000000 -\ncreate $ 00000000 00000000 1\nrename $.A $.B\n",
        1,
        b"error 3 NotFound\nerror 5 IsDirectory\nerror 3 NotFound\n",
    ),
    (&["other"], b"free\ncdir $.A\nfree\n", 12, b""),
    (
        &["disc"],
        b"cdir $.A.B\ncdir $.Hello\ncdir $\ndelete $.A\n",
        1,
        b"error 3 NotFound\nerror 6 Exists\nerror 6 Exists\nerror 3 NotFound\n",
    ),
    (
        &["disc"],
        b"set $.A 00000000 00000000 RWL\nset $ 00000000 00000000 R\ndelete $.Hello.A\ndelete $\n",
        1,
        b"error 3 NotFound\nerror 7 RootRefused\nerror 4 NotDirectory\nerror 7 RootRefused\n",
    ),
    (
        &["--read-only", "disc"],
        b"delete $.None\ndelete $.Hello\nset $.Hello 00000000 00000000 L\ncdir $.Hello\ncdir $.D\ncompact\n",
        1,
        b"error 3 NotFound\nerror 11 ReadOnly\nerror 11 ReadOnly\nerror 6 Exists\nerror 11 ReadOnly\n\
            error 11 ReadOnly\n",
    ),
    (
        &["--read-only", "disc"],
        b"\n#\ncompact",
        1,
        b"error 11 ReadOnly\n",
    ),
];

#[test]
fn an_image_with_one_file(rt: HostRuntime) -> Result<(), Fail> {
    let alloc = rt.alloc();
    for (words, script, wanted, text) in ONE_FILE {
        let image = hello(alloc, &[])?;
        let (status, written, left) = outcome(alloc, words, image, script)?;
        assert!(rt; status == *wanted);
        assert!(rt; written.as_slice() == *text);
        assert!(rt; left == hello(alloc, &[])?);
    }
    Ok(())
}

// Bytes of the image that are others, a script, and the status and the text that it has over that image.
type OtherImage = (&'static [(usize, u8)], &'static [u8], u8, &'static [u8]);

const OTHER_IMAGES: &[OtherImage] = &[
    (
        &[
            (2071, 0),
            (2075, 255),
            (2076, 255),
            (2077, 255),
            (4095, 0x89),
        ],
        b"load $.hello\n",
        0,
        b"\nok\n",
    ),
    (
        &[(2055, 0x20), (4095, 0x90)],
        b"cat $\nload $.HE%20LO\nsave $.He%20lo 00000000 00000000 01\nlod $\nload $\nload $.He%20lo.C\n",
        1,
        b"He%20lo 00000003 00000000 00000000 5\nok\n48656c6c6f\nok\nerror 2 BadName\nerror 1 BadCommand\n\
            error 5 IsDirectory\nerror 4 NotDirectory\n",
    ),
    (&[(0, 0xa2)], b"free\n", 3, b"bad-image NoKind\n"),
    (
        &[(69, 0), (863, 0)],
        b"free\n",
        3,
        b"bad-image Zone 0 544\n",
    ),
    (&[(0, 0xae), (1, 0x29)], b"", 3, b"bad-image Zone 0 561\n"),
    (
        &[(2049, 88)],
        b"free\n",
        3,
        b"bad-image Directory $ Magic\n",
    ),
    (
        &[(4095, 0xf3)],
        b"free\n",
        3,
        b"bad-image Directory $ Check\n",
    ),
    (
        &[(2076, 1), (4095, 0xf6)],
        b"",
        3,
        b"bad-image Place $.Hello\n",
    ),
    (
        &[(2071, 1), (2072, 8), (4095, 0x70)],
        b"",
        3,
        b"bad-image Place $.Hello\n",
    ),
    (
        &[(2075, 2), (2076, 2), (4095, 0xd0)],
        b"",
        3,
        b"bad-image Overlap $.Hello\n",
    ),
    (
        &[(2075, 3), (2076, 2), (2078, 8), (4095, 0x98)],
        b"",
        3,
        b"bad-image Overlap $.Hello\n",
    ),
    (
        &[(2049, 88)],
        b"compact\n",
        3,
        b"bad-image Directory $ Magic\n",
    ),
    // The copies of the map are made equal.
    (
        &[],
        b"free\nreclaim\n",
        0,
        b"free 813056 813056\nok\nreclaimed 0\nok\n",
    ),
    (
        &[],
        b"reclaim\nlod\n",
        1,
        b"reclaimed 0\nok\nerror 1 BadCommand\n",
    ),
];

#[test]
fn other_images(rt: HostRuntime) -> Result<(), Fail> {
    let alloc = rt.alloc();
    for (others, script, wanted, text) in OTHER_IMAGES {
        let (status, written, _) = outcome(alloc, &["disc"], hello(alloc, others)?, script)?;
        assert!(rt; status == *wanted);
        assert!(rt; written.as_slice() == *text);
    }
    Ok(())
}

// A fresh volume with some bytes changed and cut to a length.
fn damaged(
    alloc: Global,
    format: &str,
    others: &[(usize, u8)],
    length: usize,
) -> Result<Vec<u8>, Fail> {
    let mut image = fresh(alloc, format)?;
    change(&mut image, others);
    image.truncate(length);
    Ok(image)
}

// A format, bytes of its fresh volume that are others, the length that is left, and what the run answers.
const DAMAGED: &[(&str, &[(usize, u8)], usize, &[u8])] = &[
    ("E", &[], 0, b"bad-image NoKind\n"),
    ("F", &[], 1_000_000, b"bad-image Short 1638400 1000000\n"),
    ("D", &[], 800_000, b"bad-image Short 819200 800000\n"),
    (
        "E",
        &[(0, 0xf0), (1024, 0xf0)],
        FRESH,
        b"bad-image NoKind\n",
    ),
    (
        "F",
        &[(814_080, 0x4d), (820_224, 0x4d)],
        FRESH,
        b"bad-image Copies 1 3\n",
    ),
    (
        "F",
        &[(814_080, 0x98), (814_907, 0), (818_176, 0x98), (819_003, 0)],
        FRESH,
        b"bad-image Zone 1 32\n",
    ),
];

#[test]
fn fresh_volumes_damaged(rt: HostRuntime) -> Result<(), Fail> {
    let alloc = rt.alloc();
    for (format, others, length, text) in DAMAGED {
        let image = damaged(alloc, format, others, *length)?;
        let (status, written, _) = outcome(alloc, &["disc"], image, b"free\n")?;
        assert!(rt; status == 3);
        assert!(rt; written.as_slice() == *text);
    }
    Ok(())
}

// The calls that fail: at most one read, one write and one sync of the disk, one read of the script, and one write of the output.
#[derive(Clone, Copy)]
struct Faults {
    read: u64,
    write: u64,
    sync: u64,
    source: u64,
    sink: u64,
}

const NONE: Faults = Faults {
    read: 0,
    write: 0,
    sync: 0,
    source: 0,
    sink: 0,
};

fn one(alloc: Global, number: u64) -> Result<Vec<u64>, Fail> {
    let mut numbers = Vec::new(alloc);
    numbers.push(number)?;
    Ok(numbers)
}

// The most calls that a run here makes of its disk: to make a disc of 819,200 bytes in sectors of 256.
const CALLS: usize = 3300;

// The disk after a run in which calls fail, and its status and text.
fn faulty(
    alloc: Global,
    words: &[&str],
    image: &[u8],
    script: &[u8],
    faults: Faults,
) -> Result<(MemoryDisk, u8, Vec<u8>), Fail> {
    let failing = Failing {
        reads: one(alloc, faults.read)?,
        writes: one(alloc, faults.write)?,
        syncs: one(alloc, faults.sync)?,
    };
    let name = String::from_str(alloc, "disc")?;
    let mut disk = MemoryDisk::new(alloc, name, copied(alloc, image)?, failing, CALLS, FRESH)?;
    let mut source = ListSource::new(copied(alloc, script)?, one(alloc, faults.source)?, 5);
    let mut sink = ListSink::new(alloc, one(alloc, faults.sink)?, 5000)?;
    let words = texts(alloc, words)?;
    let end = run(alloc, &words, &mut disk, &mut source, &mut sink);
    let text = copied(alloc, sink.bytes())?;
    Ok((disk, end.status(), text))
}

// A script that is too long isn't run, and no disc is sought.
#[test]
fn the_longest_script(rt: HostRuntime) -> Result<(), Fail> {
    let alloc = rt.alloc();
    for (length, wanted) in [(16_777_216, 12), (16_777_217, 8)] {
        let script = vec![in alloc; 10; length]?;
        let (status, text, _) = outcome(alloc, &["other"], Vec::new(alloc), &script)?;
        assert!(rt; status == wanted && text.is_empty());
    }
    Ok(())
}

// A script over a disc, and what it answers. Before it, so many files of 0 bytes are made in a directory, and listed.
struct Row {
    disc: &'static Disc,
    files: (&'static str, u32),
    script: &'static [u8],
    status: u8,
    text: &'static [u8],
    // What `check` answers over the disc that is left, and what lies on it.
    left: &'static [u8],
    parts: &'static [Part],
}

const PLAIN: Row = Row {
    disc: &FRESH_E,
    files: ("$", 0),
    script: b"",
    status: 0,
    text: b"",
    left: b"",
    parts: &[],
};

// The lines that make so many files in a directory and list them, and what they answer.
fn filled(alloc: Global, directory: &str, files: u32) -> Result<(String, String), Fail> {
    let mut script = String::new(alloc);
    let mut text = String::new(alloc);
    let mut list = String::new(alloc);
    for number in 0..files {
        let line = format!(in alloc; "create {directory}.N{number:02} fffffd00 00000000 0\n")?;
        script.push_str(&line)?;
        text.push_str("ok\n")?;
        let entry = format!(in alloc; "N{number:02} 00000003 fffffd00 00000000 0\n")?;
        list.push_str(&entry)?;
    }
    if files > 0 {
        let line = format!(in alloc; "cat {directory}\n")?;
        script.push_str(&line)?;
        text.push_str(&list)?;
        text.push_str("ok\n")?;
    }
    Ok((script, text))
}

// Whether a row holds, over both disks in memory.
fn holds(alloc: Global, row: &Row) -> Result<bool, Fail> {
    let (directory, files) = row.files;
    let (lines, replies) = filled(alloc, directory, files)?;
    let mut script = copied(alloc, lines.as_bytes())?;
    script.extend_from_slice(row.script)?;
    let mut wanted = copied(alloc, replies.as_bytes())?;
    wanted.extend_from_slice(row.text)?;
    let image = image_of(alloc, row.disc)?;
    let (disk, other_status, other_text) = faulty(alloc, &["disc"], &image, &script, NONE)?;
    let (status, text, left) = outcome(alloc, &["disc"], image, &script)?;
    let is_answered = status == row.status && text == wanted;
    let is_same = other_status == status && other_text == text && disk.bytes() == left.as_slice();
    Ok(is_answered && is_same && is_left(alloc, row, &left)?)
}

// Whether an image is what a row leaves: it opens again, and both copies of its map are equal.
fn is_left(alloc: Global, row: &Row, image: &[u8]) -> Result<bool, Fail> {
    for (at, bytes) in row.parts {
        if part_of(alloc, image, *at, bytes.len())?.as_slice() != *bytes {
            return Ok(false);
        }
    }
    let Disc { map, copy, .. } = row.disc;
    let second = part_of(alloc, image, map.saturating_add(*copy), *copy)?;
    let are_equal = part_of(alloc, image, *map, *copy)? == second;
    let (_, counts, _) = outcome(alloc, &["disc"], copied(alloc, image)?, b"check\n")?;
    Ok(are_equal && counts.as_slice() == row.left)
}
