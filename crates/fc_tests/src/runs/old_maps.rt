// Whole runs that change discs with old maps.
use super::{Disc, FRESH_D, FRESH_L, PLAIN, Row, holds};
use std::test::Fail;

// A disc of format D without lost space, which has holes of 4 and of 8 units of 256 bytes.
const FOUR_AND_EIGHT: Disc = Disc {
    format: "",
    length: 819_200,
    parts: &[&[
        (0, b"\x0c\0\0\x14"),
        (252, b"\x80\x0c\0\xac\x04\0\0\x08"),
        (510, b"\x06\x12"),
        (1025, b"NickF\r"),
        (1047, b"\x01\0\0\0\x10\0\0\x03G\r"),
        (1074, b"d\x0c\0\x1c\0\0\x03"),
        (3034, b"\x04\0\0$\r"),
        (3056, b"$\r"),
        (3067, b"Nick\xc7"),
        (4096, b"F"),
    ]],
    ..FRESH_L
};

// A disc of format L with 82 holes of two units. The file `P` touches none of them, and `Q` touches the first.
const MANY_HOLES: Disc = Disc {
    format: "",
    length: 655_360,
    parts: &[&[
        (
            0,
            b"\x0c\0\0\x0f\0\0\x12\0\0\x15\0\0\x18\0\0\x1b\0\0\x1e\0\0!\0\0$\0\0'\0\0*\0\0-\0\0\
                    0\0\03\0\06\0\09\0\0<\0\0?\0\0B\0\0E\0\0H\0\0K\0\0N\0\0Q\0\0T\0\0W\0\0Z\0\0]\0\0\
                    `\0\0c\0\0f\0\0i\0\0l\0\0o\0\0r\0\0u\0\0x\0\0{\0\0~\0\0\x81\0\0\x84\0\0\x87\0\0\
                    \x8a\0\0\x8d\0\0\x90\0\0\x93\0\0\x96\0\0\x99\0\0\x9c\0\0\x9f\0\0\xa2\0\0\xa5\0\0\
                    \xa8\0\0\xab\0\0\xae\0\0\xb1\0\0\xb4\0\0\xb7\0\0\xba\0\0\xbd\0\0\xc0\0\0\xc3\0\0\
                    \xc6\0\0\xc9\0\0\xcc\0\0\xcf\0\0\xd2\0\0\xd5\0\0\xd8\0\0\xdb\0\0\xde\0\0\xe1\0\0\
                    \xe4\0\0\xe7\0\0\xea\0\0\xed\0\0\xf0\0\0\xf3\0\0\xf6\0\0\xf9\0\0\xfc\0\0\xff",
        ),
        (253, b"\n\0\xf7"),
        (
            256,
            b"\x02\0\0\x02\0\0\x02\0\0\x02\0\0\x02\0\0\x02\0\0\x02\0\0\x02\0\0\x02\0\0\x02\0\0\
                    \x02\0\0\x02\0\0\x02\0\0\x02\0\0\x02\0\0\x02\0\0\x02\0\0\x02\0\0\x02\0\0\x02\0\0\
                    \x02\0\0\x02\0\0\x02\0\0\x02\0\0\x02\0\0\x02\0\0\x02\0\0\x02\0\0\x02\0\0\x02\0\0\
                    \x02\0\0\x02\0\0\x02\0\0\x02\0\0\x02\0\0\x02\0\0\x02\0\0\x02\0\0\x02\0\0\x02\0\0\
                    \x02\0\0\x02\0\0\x02\0\0\x02\0\0\x02\0\0\x02\0\0\x02\0\0\x02\0\0\x02\0\0\x02\0\0\
                    \x02\0\0\x02\0\0\x02\0\0\x02\0\0\x02\0\0\x02\0\0\x02\0\0\x02\0\0\x02\0\0\x02\0\0\
                    \x02\0\0\x02\0\0\x02\0\0\x02\0\0\x02\0\0\x02\0\0\x02\0\0\x02\0\0\x02\0\0\x02\0\0\
                    \x02\0\0\x02\0\0\x02\0\0\x02\0\0\x02\0\0\x02\0\0\x02\0\0\x02\0\0\x02\0\0\x02\0\0\
                    \x02\0\0\x02",
        ),
        (510, b"\xf6\x9b\0Hugo\xd0\x8d"),
        (535, b"\x01\0\0\0\x08\0\0\0\xd1\x8d"),
        (561, b"\x01\0\0\0\x0b"),
        (1740, b"$\r\0\0\0\0\0\0\0\0\x02\0\0$\r"),
        (1787, b"Hugo"),
        (2048, b"P"),
        (2816, b"Q"),
    ]],
    ..FRESH_L
};

const ROWS: &[Row] = &[
    // A file takes 256 bytes, and a directory 1280.
    Row {
        disc: &FRESH_L,
        script: b"save $.A 00000000 00000000 01\ncdir $.D\nfree\n",
        text: b"ok\nok\nfree 652032 652032\nok\n",
        left: b"files 1 dirs 2 lost 0 holes 1 free 652032 unsorted 0 parents 0\nok\n",
        ..PLAIN
    },
    // What is too long is refused, and what fits fills the disc.
    Row {
        disc: &FRESH_D,
        script: b"create $.A 00000000 00000000 816129\ncreate $.A 00000000 00000000 816128\nfree\n\
            create $.B 00000000 00000000 1\ncreate $.C 00000000 00000000 0\n",
        status: 1,
        text: b"error 14 DiscFull\nok\nfree 0 0\nok\nerror 14 DiscFull\nok\n",
        left: b"files 2 dirs 1 lost 0 holes 0 free 0 unsorted 0 parents 0\nok\n",
        ..PLAIN
    },
    // Space in two holes
    Row {
        disc: &FOUR_AND_EIGHT,
        script: b"create $.A 00000000 00000000 3073\ncreate $.A 00000000 00000000 3000\ncompact\n\
            create $.A 00000000 00000000 3000\nfree\n",
        status: 1,
        text: b"error 14 DiscFull\nerror 15 CompactionRequired\nok\nok\nfree 0 0\nok\n",
        left: b"files 3 dirs 1 lost 0 holes 0 free 0 unsorted 0 parents 0\nok\n",
        ..PLAIN
    },
    // The same holes, made by commands
    Row {
        disc: &FRESH_D,
        script: b"create $.A 00000000 00000000 1024\ncreate $.B 00000000 00000000 1\n\
            create $.C 00000000 00000000 2048\ncreate $.D 00000000 00000000 812032\nfree\n\
            delete $.A\ndelete $.C\nfree\ncreate $.E 00000000 00000000 3073\n\
            create $.E 00000000 00000000 3000\ncreate $.E 00000000 00000000 2048\nfree\n",
        status: 1,
        text: b"ok\nok\nok\nok\nfree 0 0\nok\nok\nok\nfree 3072 2048\nok\nerror 14 DiscFull\n\
            error 15 CompactionRequired\nok\nfree 1024 1024\nok\n",
        left: b"files 3 dirs 1 lost 0 holes 1 free 1024 unsorted 0 parents 0\nok\n",
        ..PLAIN
    },
    Row {
        disc: &FRESH_D,
        script: b"save $.A 00000000 00000000 -\ncreate $.A 00000000 00000000 1024\n\
            save $.B 00000000 00000000 4142\ncreate $.C 00000000 00000000 2048\n\
            create $.D 00000000 00000000 812032\ndelete $.A\ndelete $.C\ncompact\nfree\n\
            load $.B\ncreate $.E 00000000 00000000 3000\nfree\n",
        text: b"ok\nok\nok\nok\nok\nok\nok\nok\nfree 3072 3072\nok\n4142\nok\nok\nfree 0 0\nok\n",
        left: b"files 3 dirs 1 lost 0 holes 0 free 0 unsorted 0 parents 0\nok\n",
        ..PLAIN
    },
    // A map with 82 holes has no room for one more; a file that touches a hole needs none.
    Row {
        disc: &MANY_HOLES,
        script: b"delete $.P\ndelete $.Q\nfree\n",
        status: 1,
        text: b"error 16 MapFull\nok\nfree 42240 768\nok\n",
        left: b"files 1 dirs 1 lost 611072 holes 82 free 42240 unsorted 0 parents 0\nok\n",
        ..PLAIN
    },
    // A full directory
    Row {
        disc: &FRESH_D,
        files: ("$", 77),
        script: b"create $.New 00000000 00000000 0\ncdir $.New\ncdir $.n05\n\
            create $.n05 00000000 00000000 1\n",
        status: 1,
        text: b"error 12 DirFull\nerror 12 DirFull\nerror 6 Exists\nok\n",
        left: b"files 77 dirs 1 lost 0 holes 1 free 815104 unsorted 0 parents 0\nok\n",
        ..PLAIN
    },
    Row {
        disc: &FRESH_L,
        files: ("$", 47),
        script: b"create $.New 00000000 00000000 0\ncdir $.New\ncdir $.n05\n\
            create $.n05 00000000 00000000 1\n",
        status: 1,
        text: b"error 12 DirFull\nerror 12 DirFull\nerror 6 Exists\nok\n",
        left: b"files 47 dirs 1 lost 0 holes 1 free 653312 unsorted 0 parents 0\nok\n",
        ..PLAIN
    },
    // No file shares a sector with another.
    Row {
        disc: &FRESH_L,
        script: b"save $.A 00000000 00000000 4142\nsave $.B 00000000 00000000 43\nfree\ndelete $.A\n\
            load $.B\nfree\ndelete $.B\nfree\n",
        text: b"ok\nok\nfree 653056 653056\nok\nok\n43\nok\nfree 653312 653056\nok\nok\n\
            free 653568 653568\nok\n",
        left: b"files 0 dirs 1 lost 0 holes 1 free 653568 unsorted 0 parents 0\nok\n",
        ..PLAIN
    },
    // A file over a file takes other space first.
    Row {
        disc: &FRESH_L,
        script: b"save $.A fffff000 00000000 4142\nsave $.a fffffd00 00000001 43\ncat $\nload $.A\n\
            free\n",
        text: b"ok\nok\nA 00000003 fffffd00 00000001 1\nok\n43\nok\nfree 653312 653056\nok\n",
        left: b"files 1 dirs 1 lost 0 holes 2 free 653312 unsorted 0 parents 0\nok\n",
        ..PLAIN
    },
    // A locked file
    Row {
        disc: &FRESH_L,
        script: b"save $.L 00000000 00000000 01\nset $.L 00000000 00000000 RL\ndelete $.L\n\
            rename $.L $.M\nsave $.L 00000000 00000000 02\ncat $\nload $.L\n",
        status: 1,
        text: b"ok\nok\nerror 9 Locked\nerror 9 Locked\nerror 9 Locked\n\
            L 00000005 00000000 00000000 1\nok\n01\nok\n",
        left: b"files 1 dirs 1 lost 0 holes 1 free 653312 unsorted 0 parents 0\nok\n",
        ..PLAIN
    },
    // Refusals of renaming
    Row {
        disc: &FRESH_L,
        script: b"cdir $.D\ncdir $.D.E\nrename $.D $.D.E.X\nrename $.D $.D.Q.X\nrename $.D $.D\n\
            rename $ $.X\nrename $.D $\ndelete $.D\n",
        status: 1,
        text: b"ok\nok\nerror 8 IntoItself\nerror 3 NotFound\nok\nerror 7 RootRefused\n\
            error 6 Exists\nerror 10 NotEmpty\n",
        left: b"files 0 dirs 3 lost 0 holes 1 free 651008 unsorted 0 parents 0\nok\n",
        ..PLAIN
    },
    Row {
        disc: &FRESH_D,
        script: b"cdir $.D\ncdir $.E\nsave $.D.F 00000000 00000000 01\nrename $.D $.E.G\nload $.E.G.F\n\
            rename $.E $.E.X\ndelete $.E.G\n",
        status: 1,
        text: b"ok\nok\nok\nok\n01\nok\nerror 8 IntoItself\nerror 10 NotEmpty\n",
        left: b"files 1 dirs 3 lost 0 holes 1 free 811008 unsorted 0 parents 0\nok\n",
        ..PLAIN
    },
    // An empty file
    Row {
        disc: &FRESH_L,
        script: b"create $.A 00000000 00000000 0\nset $.a 00000001 00000002 RL\ndelete $.A\ncat $\n\
            set $.A 00000000 00000000 -\ndelete $.A\ncat $\nfree\n",
        status: 1,
        text: b"ok\nok\nerror 9 Locked\nA 00000005 00000001 00000002 0\nok\nok\nok\nok\n\
            free 653568 653568\nok\n",
        left: b"files 0 dirs 1 lost 0 holes 1 free 653568 unsorted 0 parents 0\nok\n",
        ..PLAIN
    },
    Row {
        disc: &FRESH_D,
        script: b"compact\nfree\nset $.A 00000000 00000000 R\ndelete $\n",
        status: 1,
        text: b"ok\nfree 816128 816128\nok\nerror 3 NotFound\nerror 7 RootRefused\n",
        left: b"files 0 dirs 1 lost 0 holes 1 free 816128 unsorted 0 parents 0\nok\n",
        ..PLAIN
    },
];

// In the test itself the table would stand in each goal.
fn rows() -> &'static [Row] {
    ROWS
}

#[test]
fn rows_over_old_maps(rt: HostRuntime) -> Result<(), Fail> {
    let alloc = rt.alloc();
    for row in rows() {
        assert!(rt; holds(alloc, row)?);
    }
    Ok(())
}
