// Whole runs that change big directories, which grow.
use super::{FRESH_E_PLUS, FRESH_F_PLUS, PLAIN, Row, holds};
use std::test::Fail;

const ROWS: &[Row] = &[
    // A full root grows into a new place, and compaction leaves one hole.
    Row {
        disc: &FRESH_E_PLUS,
        files: ("$", 62),
        script: b"free\ncreate $.N62 00000000 00000000 0\nfree\ncompact\nfree\n",
        text: b"free 815104 815104\nok\nok\nfree 813056 811008\nok\nok\nfree 813056 813056\nok\n",
        left: b"files 63 dirs 1 lost 0 holes 1 free 813056 unsorted 0 parents 0\nok\n",
        parts: &[(16, b"\x01\x03\0\0"), (52, b"\0\x10\0\0")],
        ..PLAIN
    },
    // A name of more than ten bytes
    Row {
        disc: &FRESH_E_PLUS,
        script: b"save $.Notes_of_the_second_year 00000000 00000000 4142\ncat $\n",
        text: b"ok\nNotes_of_the_second_year 00000003 00000000 00000000 2\nok\n",
        left: b"files 1 dirs 1 lost 0 holes 1 free 813056 unsorted 0 parents 0\nok\n",
        ..PLAIN
    },
    // It grows by a file that takes space.
    Row {
        disc: &FRESH_E_PLUS,
        files: ("$", 62),
        script: b"save $.New 00000000 00000000 4142\nload $.New\nfree\n",
        text: b"ok\n4142\nok\nfree 811008 808960\nok\n",
        left: b"files 63 dirs 1 lost 0 holes 2 free 811008 unsorted 0 parents 0\nok\n",
        ..PLAIN
    },
    // It grows by a directory.
    Row {
        disc: &FRESH_E_PLUS,
        files: ("$", 62),
        script: b"cdir $.New\ncat $.New\ncreate $.New.A 00000000 00000000 0\ndelete $.New.A\ndelete $.New\n",
        text: b"ok\nok\nok\nok\nok\n",
        left: b"files 62 dirs 1 lost 0 holes 2 free 813056 unsorted 0 parents 0\nok\n",
        ..PLAIN
    },
    // No room to grow
    Row {
        disc: &FRESH_E_PLUS,
        files: ("$", 61),
        script: b"create $.Full 00000000 00000000 815104\nfree\ncreate $.New 00000000 00000000 0\n\
            delete $.Full\ncreate $.New 00000000 00000000 0\ncreate $.Full 00000000 00000000 0\n\
            free\n",
        status: 1,
        text: b"ok\nfree 0 0\nok\nerror 14 DiscFull\nok\nok\nok\nfree 813056 811008\nok\n",
        left: b"files 63 dirs 1 lost 0 holes 2 free 813056 unsorted 0 parents 0\nok\n",
        ..PLAIN
    },
    // It grows by a longer name,
    Row {
        disc: &FRESH_E_PLUS,
        files: ("$", 62),
        script: b"rename $.N00 $.Name_of_more_than_thirty_bytes_\nfree\n",
        text: b"ok\nfree 813056 811008\nok\n",
        left: b"files 62 dirs 1 lost 0 holes 2 free 813056 unsorted 0 parents 0\nok\n",
        parts: &[(52, b"\0\x10\0\0")],
        ..PLAIN
    },
    // by a file that is copied into it, since it shares its identifier,
    Row {
        disc: &FRESH_E_PLUS,
        files: ("$", 61),
        script: b"cdir $.D\nsave $.D.A 00000000 00000000 4142\nsave $.D.B 00000000 00000000 43\nfree\n\
            rename $.D.B $.B\nload $.B\nload $.D.A\ncat $.D\nfree\n",
        text: b"ok\nok\nok\nfree 811008 811008\nok\nok\n43\nok\n4142\nok\n\
            A 00000003 00000000 00000000 2\nok\nfree 806912 804864\nok\n",
        left: b"files 63 dirs 2 lost 0 holes 2 free 806912 unsorted 0 parents 0\nok\n",
        ..PLAIN
    },
    // and by a directory that moves to it with its file.
    Row {
        disc: &FRESH_E_PLUS,
        files: ("$", 61),
        script: b"cdir $.D\ncdir $.D.E\nsave $.D.E.F 00000000 00000000 4142\nrename $.D.E $.E\n\
            load $.E.F\ncat $.D\nfree\nrename $.E $.D.E\nload $.D.E.F\n",
        text: b"ok\nok\nok\nok\n4142\nok\nok\nfree 806912 804864\nok\nok\n4142\nok\n",
        left: b"files 62 dirs 3 lost 0 holes 2 free 806912 unsorted 0 parents 0\nok\n",
        ..PLAIN
    },
    // What needs no growth is as over small directories.
    Row {
        disc: &FRESH_E_PLUS,
        script: b"cdir $.D\ncdir $.D.E\nrename $.D $.D.E.X\nrename $.D $.D.Q.X\nrename $.D $.D\n\
            rename $ $.X\nrename $.D $\ndelete $.D\n",
        status: 1,
        text: b"ok\nok\nerror 8 IntoItself\nerror 3 NotFound\nok\nerror 7 RootRefused\n\
            error 6 Exists\nerror 10 NotEmpty\n",
        left: b"files 0 dirs 3 lost 0 holes 1 free 811008 unsorted 0 parents 0\nok\n",
        ..PLAIN
    },
    Row {
        disc: &FRESH_E_PLUS,
        script: b"cdir $.D\nrename $.D $.E\ncreate $.E.F 00000000 00000000 0\n\
            set $.E.F 00000000 00000000 R\ndelete $.E.F\ndelete $.E\nfree\n",
        text: b"ok\nok\nok\nok\nok\nok\nfree 815104 815104\nok\n",
        left: b"files 0 dirs 1 lost 0 holes 1 free 815104 unsorted 0 parents 0\nok\n",
        ..PLAIN
    },
    Row {
        disc: &FRESH_E_PLUS,
        script: b"save $.A 00000000 00000000 4142\nsave $.B 00000000 00000000 43\ncdir $.D\n\
            rename $.B $.D.B\nload $.D.B\nfree\n",
        text: b"ok\nok\nok\nok\n43\nok\nfree 808960 808960\nok\n",
        left: b"files 2 dirs 2 lost 0 holes 1 free 808960 unsorted 0 parents 0\nok\n",
        ..PLAIN
    },
    Row {
        disc: &FRESH_E_PLUS,
        script: b"save $.A 00000000 00000000 4142\nsave $.B 00000000 00000000 43\nfree\ndelete $.A\n\
            load $.B\nfree\ndelete $.B\nfree\n",
        text: b"ok\nok\nfree 813056 813056\nok\nok\n43\nok\nfree 813056 813056\nok\nok\n\
            free 815104 815104\nok\n",
        left: b"files 0 dirs 1 lost 0 holes 1 free 815104 unsorted 0 parents 0\nok\n",
        ..PLAIN
    },
    Row {
        disc: &FRESH_E_PLUS,
        script: b"save $.L 00000000 00000000 01\nset $.L 00000000 00000000 RL\ndelete $.L\n\
            rename $.L $.M\nsave $.L 00000000 00000000 02\ncat $\nload $.L\n",
        status: 1,
        text: b"ok\nok\nerror 9 Locked\nerror 9 Locked\nerror 9 Locked\n\
            L 00000005 00000000 00000000 1\nok\n01\nok\n",
        left: b"files 1 dirs 1 lost 0 holes 1 free 813056 unsorted 0 parents 0\nok\n",
        ..PLAIN
    },
    Row {
        disc: &FRESH_F_PLUS,
        script: b"free\nlod\nrename $ $\ncreate $.B 00000000 00000000 0\nrename $.b $.A\n\
            save $ 00000000 00000000 -\n",
        status: 1,
        text: b"free 1624064 421888\nok\nerror 1 BadCommand\nerror 7 RootRefused\nok\nok\n\
            error 5 IsDirectory\n",
        left: b"files 1 dirs 1 lost 0 holes 4 free 1624064 unsorted 0 parents 0\nok\n",
        ..PLAIN
    },
];

// In the test itself the table would stand in each goal.
fn rows() -> &'static [Row] {
    ROWS
}

#[test]
fn rows_over_big_directories(rt: HostRuntime) -> Result<(), Fail> {
    let alloc = rt.alloc();
    for row in rows() {
        assert!(rt; holds(alloc, row)?);
    }
    Ok(())
}
