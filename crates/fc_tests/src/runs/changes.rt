// Whole runs that change discs with new maps.
use super::{Disc, FRESH_E_PLUS, FRESH_F, HELLO, PLAIN, Row, holds, outcome};
use std::test::Fail;

// The first copy of the map has another total than it may have, and right checks.
const WRONG_TOTAL: Disc = Disc {
    parts: &[&[(813_056, b"\xbd\x18\x82\xfe")]],
    ..FRESH_F
};

// One zone of a sector of 512 bytes, with a boot block, and two holes of 18 bits.
const TWO_HOLES: Disc = Disc {
    format: "",
    length: 18_944,
    map: 0,
    copy: 512,
    parts: &[&[
        (
            0,
            b"\xa0\x0e\x82\xff\t\0\0\0\x0f\x08\0\0\0\x01 \0\x08\x02\0\0\0J",
        ),
        (64, b"\x02\0\xa0\x08\x80c\x80\0\0\x02"),
        (3520, b"\t\0\0\0\x0f\x08\0\0\0\x01 \0\x08\x02\0\0\0J"),
        (3583, b"\x95\0Nick"),
        (5594, b"\x08\x02\0$\r"),
        (5616, b"$\r"),
        (5627, b"Nicka"),
    ]],
};

// As a disc of format F may look that was used: an application, directories that aren't sorted, a run of a defect, and bits that
// are set after the end of each zone.
const USED: Disc = Disc {
    format: "",
    length: 1_638_400,
    map: 813_056,
    copy: 4096,
    parts: &[
        &[
            (
                3520,
                b"\n\n\x02\x04\x0f\x06\x01\0\0\x04@\x06\t\x02\0\0\0\0\x19",
            ),
            (3583, b"\x9e"),
            (4097, b"Nick"),
            (6106, b"\t\x02\0Docs\r"),
            (
                6128,
                b"Docs\r\0\0\0\0\0\0NickY\0Nick!Run\r\0\0\0\0\0\x12\xeb\xff\xffZZZZ\x08\0\0\0\0\x05\0\x03",
            ),
            (8154, b"\t\x02\0!Boot\r"),
            (8176, b"!Boot\r\0\0\0\0\0Nick)| boots\n"),
            (
                813_056,
                b"\x89\x88\x82\xff\n\n\x02\x04\x0f\x06\x01\0\0\x04@\x06\t\x02\0\0\0\0\x19",
            ),
            (
                813_120,
                b"\x02\0\0\0\0\0\0\x80\x03\0\0\x80\x04\0\0\x80\x05\x80",
            ),
            (813_883, b"\x80"),
            (814_080, b"\x17\x18\x80"),
            (814_907, b"\x80"),
            (815_104, b"*\xb8\x80\0\x02"),
            (815_127, b"\x80"),
            (815_931, b"\x80"),
            (816_128, b"\x89\x18\x80\0\x80"),
            (816_143, b"\x80\x01\0\0\x80"),
            (816_919, b"\x80"),
            (821_249, b"NickDocs\r"),
            (821_272, b"\x08\0\0\0\x03\0\x08!Boot\r"),
            (821_298, b"\x08\0\0\0\x04\0\x08"),
            (823_258, b"\t\x02\0$\r"),
            (823_280, b"$\r"),
            (823_291, b"Nick\xd8"),
        ],
        AFTER_ZONES,
    ],
};

const AFTER_ZONES: &[(usize, &[u8])] = &[
    (813_884, b"\x0f\xff\xff\xff\xff"),
    (814_908, b"\x0f\xff\xff\xff\xff"),
    (815_932, b"\x0f\xff\xff\xff\xff"),
    (816_920, b"\x0f\xff\xff\xff\xff"),
];

// Space that is taken, shared and given back, on new discs of format E but for one.
const SPACE: &[Row] = &[
    // What is too long is refused, and what fits fills the disc.
    Row {
        script: b"create $.A 00000000 00000000 815105\ncreate $.A 00000000 00000000 815104\nfree\n\
            create $.B 00000000 00000000 1\ncreate $.C 00000000 00000000 0\n",
        status: 1,
        text: b"error 14 DiscFull\nok\nfree 0 0\nok\nerror 14 DiscFull\nok\n",
        left: b"files 2 dirs 1 lost 0 holes 0 free 0 unsorted 0 parents 0\nok\n",
        ..PLAIN
    },
    // Two holes are taken whole, and what is left of them is shared.
    Row {
        disc: &TWO_HOLES,
        script: b"create $.A 00000000 00000000 5120\nfree\ncreate $.B 00000000 00000000 1\n",
        text: b"ok\nfree 0 0\nok\nok\n",
        left: b"files 2 dirs 1 lost 4096 holes 0 free 0 unsorted 0 parents 0\nok\n",
        ..PLAIN
    },
    // Two files share an identifier.
    Row {
        script: b"save $.A 00000000 00000000 4142\nsave $.B 00000000 00000000 43\n",
        text: b"ok\nok\n",
        left: b"files 2 dirs 1 lost 0 holes 1 free 813056 unsorted 0 parents 0\nok\n",
        parts: &[
            (2053, b"A\r"),
            (2075, b"\x01\x03"),
            (2079, b"B\r"),
            (2101, b"\x02\x03"),
        ],
        ..PLAIN
    },
    // Their space is given back with the last of them.
    Row {
        script: b"save $.A 00000000 00000000 4142\nsave $.B 00000000 00000000 43\nfree\ndelete $.A\n\
            load $.B\nfree\ndelete $.B\nfree\n",
        text: b"ok\nok\nfree 813056 813056\nok\nok\n43\nok\nfree 813056 813056\nok\nok\n\
            free 815104 815104\nok\n",
        left: b"files 0 dirs 1 lost 0 holes 1 free 815104 unsorted 0 parents 0\nok\n",
        ..PLAIN
    },
    // A file that shares is copied into another directory.
    Row {
        script: b"save $.A 00000000 00000000 4142\nsave $.B 00000000 00000000 43\ncdir $.D\n\
            rename $.B $.D.B\nload $.D.B\nfree\n",
        text: b"ok\nok\nok\nok\n43\nok\nfree 808960 808960\nok\n",
        left: b"files 2 dirs 2 lost 0 holes 1 free 808960 unsorted 0 parents 0\nok\n",
        ..PLAIN
    },
    // Files slide into holes.
    Row {
        script: b"create $.A 00000000 00000000 2048\ncreate $.B 00000000 00000000 2048\n\
            create $.C 00000000 00000000 4096\ndelete $.A\nfree\ncompact\nfree\n",
        text: b"ok\nok\nok\nok\nfree 808960 806912\nok\nok\nfree 808960 808960\nok\n",
        left: b"files 2 dirs 1 lost 0 holes 1 free 808960 unsorted 0 parents 0\nok\n",
        ..PLAIN
    },
    // A run of 32 bits slides into a hole of 16.
    Row {
        script: b"create $.A 00000000 00000000 2048\ncreate $.B 00000000 00000000 4096\ndelete $.A\n\
            compact\nfree\n",
        text: b"ok\nok\nok\nok\nfree 811008 811008\nok\n",
        left: b"files 1 dirs 1 lost 0 holes 1 free 811008 unsorted 0 parents 0\nok\n",
        ..PLAIN
    },
    Row {
        script: b"cdir $.D\ncdir $.D.E\nfree\ndelete $.D\ndelete $.D.E\ndelete $.D\nfree\n",
        status: 1,
        text: b"ok\nok\nfree 811008 811008\nok\nerror 10 NotEmpty\nok\nok\nfree 815104 815104\nok\n",
        left: b"files 0 dirs 1 lost 0 holes 1 free 815104 unsorted 0 parents 0\nok\n",
        ..PLAIN
    },
    Row {
        script: b"save $.A fffff000 00000000 4142\nload $.A\nrename $.a $.B\ncat $\nload $.A\n\
            save $.b 00000000 00000000 -\nload $.B\nfree\ncreate $.C 00000000 00000000 3\n\
            load $.C\n",
        status: 1,
        text: b"ok\n4142\nok\nok\nB 00000003 fffff000 00000000 2\nok\nerror 3 NotFound\nok\n\nok\n\
            free 815104 815104\nok\nok\n000000\nok\n",
        left: b"files 2 dirs 1 lost 0 holes 1 free 813056 unsorted 0 parents 0\nok\n",
        ..PLAIN
    },
];

// Names, directories and locks, on new discs of format E.
const NAMES: &[Row] = &[
    // A full directory
    Row {
        files: ("$", 77),
        script: b"create $.New 00000000 00000000 0\ncdir $.New\ncdir $.n05\n\
            create $.n05 00000000 00000000 1\n",
        status: 1,
        text: b"error 12 DirFull\nerror 12 DirFull\nerror 6 Exists\nok\n",
        left: b"files 77 dirs 1 lost 0 holes 1 free 813056 unsorted 0 parents 0\nok\n",
        ..PLAIN
    },
    // A file in the place of another takes the name as it is written.
    Row {
        script: b"save $.Ab FFFFFF00 00000000 01\nsave $.aB FFFFFF00 00000000 02\ncat $\nload $.AB\n",
        text: b"ok\nok\nAb 00000003 ffffff00 00000000 1\nok\n02\nok\n",
        left: b"files 1 dirs 1 lost 0 holes 1 free 813056 unsorted 0 parents 0\nok\n",
        ..PLAIN
    },
    // Refusals of renaming
    Row {
        script: b"cdir $.D\ncdir $.D.E\nrename $.D $.D.E.X\nrename $.D $.D.Q.X\nrename $.D $.D\n\
            rename $ $.X\nrename $.D $\ndelete $.D\n",
        status: 1,
        text: b"ok\nok\nerror 8 IntoItself\nerror 3 NotFound\nok\nerror 7 RootRefused\n\
            error 6 Exists\nerror 10 NotEmpty\n",
        left: b"files 0 dirs 3 lost 0 holes 1 free 811008 unsorted 0 parents 0\nok\n",
        ..PLAIN
    },
    // A locked file
    Row {
        script: b"save $.L 00000000 00000000 01\nset $.L 00000000 00000000 RL\ndelete $.L\n\
            rename $.L $.M\nsave $.L 00000000 00000000 02\ncat $\nload $.L\n",
        status: 1,
        text: b"ok\nok\nerror 9 Locked\nerror 9 Locked\nerror 9 Locked\n\
            L 00000005 00000000 00000000 1\nok\n01\nok\n",
        left: b"files 1 dirs 1 lost 0 holes 1 free 813056 unsorted 0 parents 0\nok\n",
        ..PLAIN
    },
    // A name that is too long for a small directory
    Row {
        script: b"save $.Notes_of_the_second_year 00000000 00000000 4142\ncat $\n",
        status: 1,
        text: b"error 2 BadName\nok\n",
        left: b"files 0 dirs 1 lost 0 holes 1 free 815104 unsorted 0 parents 0\nok\n",
        ..PLAIN
    },
    Row {
        script: b"cdir $.D\ncdir $.d\nset $.d 00000001 00000002 L\ncat $\ndelete $.D\n",
        status: 1,
        text: b"ok\nerror 6 Exists\nok\nD 0000000c 00000001 00000002 dir\nok\nerror 9 Locked\n",
        left: b"files 0 dirs 2 lost 0 holes 1 free 813056 unsorted 0 parents 0\nok\n",
        ..PLAIN
    },
    Row {
        script: b"cdir $.A%20B\ncdir $.LongerThanTen\ncdir $.A.B\ncdir $.A\ncdir $.A.B\n",
        status: 1,
        text: b"error 2 BadName\nerror 2 BadName\nerror 3 NotFound\nok\nok\n",
        left: b"files 0 dirs 3 lost 0 holes 1 free 811008 unsorted 0 parents 0\nok\n",
        ..PLAIN
    },
    Row {
        script: b"cdir $.D\ncdir $.E\nsave $.D.F 00000000 00000000 01\nrename $.D $.E.G\nload $.E.G.F\n\
            rename $.E $.E.X\ndelete $.E.G\n",
        status: 1,
        text: b"ok\nok\nok\nok\n01\nok\nerror 8 IntoItself\nerror 10 NotEmpty\n",
        left: b"files 1 dirs 3 lost 0 holes 1 free 808960 unsorted 0 parents 0\nok\n",
        ..PLAIN
    },
];

// Other discs.
const OTHERS: &[Row] = &[
    // A map whose first copy doesn't count is made right.
    Row {
        disc: &WRONG_TOTAL,
        script: b"cdir $.D\ncat $\n",
        text: b"ok\nD 00000008 00000000 00000000 dir\nok\n",
        left: b"files 0 dirs 2 lost 0 holes 4 free 1622016 unsorted 0 parents 0\nok\n",
        ..PLAIN
    },
    Row {
        disc: &USED,
        files: ("$.Docs", 40),
        script: b"load $.!Boot.!Run\nsave $.Docs.N05 fffffd00 00000000 4142\n\
            save $.!New 00000000 00000000 43\ndelete $.Docs.N00\ndelete $.!Boot.!Run\ncompact\n\
            load $.!New\nload $.Docs.N05\n",
        text: b"7c20626f6f74730a\nok\nok\nok\nok\nok\nok\n43\nok\n4142\nok\n",
        left: b"files 40 dirs 3 lost 0 holes 5 free 1615872 unsorted 1 parents 0\nok\n",
        parts: AFTER_ZONES,
        ..PLAIN
    },
    Row {
        disc: &HELLO,
        script: b"set $.hello fffff000 00000001 RL\ndelete $.Hello\ncat $\n\
            set $.Hello 00000000 00000000 -\nload $.HELLO\ndelete $.Hello\ncat $\nfree\n",
        status: 1,
        text: b"ok\nerror 9 Locked\nHello 00000005 fffff000 00000001 5\nok\nok\n48656c6c6f\nok\nok\n\
            ok\nfree 815104 815104\nok\n",
        left: b"files 0 dirs 1 lost 0 holes 1 free 815104 unsorted 0 parents 0\nok\n",
        ..PLAIN
    },
    Row {
        disc: &FRESH_F,
        script: b"compact\nset $ 00000000 00000000 R\n",
        status: 1,
        text: b"ok\nerror 7 RootRefused\n",
        left: b"files 0 dirs 1 lost 0 holes 4 free 1624064 unsorted 0 parents 0\nok\n",
        ..PLAIN
    },
    Row {
        disc: &FRESH_E_PLUS,
        script: b"delete $.A\nfree\n",
        status: 1,
        text: b"error 3 NotFound\nfree 815104 815104\nok\n",
        left: b"files 0 dirs 1 lost 0 holes 1 free 815104 unsorted 0 parents 0\nok\n",
        ..PLAIN
    },
];

// In the test itself the tables would stand in each goal, and all of them are too large for one.
fn space() -> &'static [Row] {
    SPACE
}

fn names() -> &'static [Row] {
    NAMES
}

fn others() -> &'static [Row] {
    OTHERS
}

#[test]
fn rows_over_new_maps(rt: HostRuntime) -> Result<(), Fail> {
    let alloc = rt.alloc();
    for rows in [space(), names(), others()] {
        for row in rows {
            assert!(rt; holds(alloc, row)?);
        }
    }
    Ok(())
}

// A demo over a fresh E; its digest is that of the nine lines `ok`, and of the replies to `check` and `free`.
#[test]
fn a_demo_of_one_command(rt: HostRuntime) -> Result<(), Fail> {
    let alloc = rt.alloc();
    let words = ["--new", "E", "--demo", "1", "disc"];
    let (status, written, left) = outcome(alloc, words.as_slice(), Vec::new(alloc), b"lod\n")?;
    assert!(rt; status == 0);
    assert!(rt;
        written.as_slice()
            == b"demo 1 commands 11 refused 0 sha256 6caa7d9637739ead1ab676ee80b47329b1332bb1827719cdbc6aa5587940287d\n".as_slice()
    );
    let (status, written, _) = outcome(alloc, &["disc"], left, b"load $.D6.F14\nfree\n")?;
    assert!(rt; status == 0);
    assert!(rt;
        written.as_slice()
            == b"000102030405060708090a0b0c0d0e0f101112131415161718191a1b1c1d1e1f202122232425262728292a2b2c2d2e2f\n\
                ok\nfree 796672 796672\nok\n"
                .as_slice()
    );
    Ok(())
}
