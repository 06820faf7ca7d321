// Big directories that grow, by each job that gives one a name.
use super::{Script, Start, try_all};
use crate::discs::{Disc, E_PLUS, F_PLUS, IN_MAP, Step, WIDE, WITH_DIRECTORY, WITH_FILE};
use std::test::Fail;

const BIG: &[Disc] = &[E_PLUS, F_PLUS, WIDE, IN_MAP];

// The root has no room for a name more of four bytes, and holds a directory with others in it.
const FULL_ROOT: Start = Start {
    discs: BIG,
    steps: &[
        Step::Lines(
            "cdir $.D; cdir $.D.E; cdir $.D.E.F; save $.D.A 00000000 00000000 4142; save $.D.B 00000000 00000000 43
            save $.D.E.C 00000000 00000000 44",
        ),
        Step::Files("$", 61, 0),
    ],
    read_only: false,
};

// The first line of each makes it grow.
const NEW_IN_ROOT: [Script; 3] = [
    (
        "create $.New1 00000000 00000000 0; create $.New2 00000000 00000000 5000; cdir $.D.G; rename $.D.E $.E; delete $.N00",
        "- $.N00 00000003 fffffd00 00000000 0; - $.D.E 00000008 00000000 00000000 dir; - $.D.E.C 00000003 00000000 00000000 1 44
        - $.D.E.F 00000008 00000000 00000000 dir; + $.E 00000008 00000000 00000000 dir; + $.New1 00000003 00000000 00000000 0
        + $.New2 00000003 00000000 00000000 5000 zeros; + $.D.G 00000008 00000000 00000000 dir
        + $.E.C 00000003 00000000 00000000 1 44; + $.E.F 00000008 00000000 00000000 dir",
    ),
    (
        "save $.New1 00000000 00000000 4142; save $.New2 00000000 00000000 43; save $.New1 00000000 00000000 44; delete $.New2",
        "+ $.New1 00000003 00000000 00000000 1 44",
    ),
    (
        "cdir $.New1; cdir $.New1.A; cdir $.New2; delete $.New1.A; delete $.New1; rename $.D.E.F $.New2.F",
        "- $.D.E.F 00000008 00000000 00000000 dir; + $.New2 00000008 00000000 00000000 dir
        + $.New2.F 00000008 00000000 00000000 dir",
    ),
];

// Within, across, of a directory, and of a file that is copied
const RENAMED_IN_ROOT: [Script; 4] = [
    (
        "rename $.N00 $.Name_of_more_than_thirty_bytes_; rename $.N01 $.N01_; rename $.N02 $.n02",
        "- $.N00 00000003 fffffd00 00000000 0; - $.N01 00000003 fffffd00 00000000 0; - $.N02 00000003 fffffd00 00000000 0
        + $.N01_ 00000003 fffffd00 00000000 0; + $.n02 00000003 fffffd00 00000000 0
        + $.Name_of_more_than_thirty_bytes_ 00000003 fffffd00 00000000 0",
    ),
    (
        "rename $.D.E.C $.Cccc; rename $.D.E $.E; rename $.E.F $.F; set $.D 00000000 00000001 L; mark $.F 04",
        "- $.D 00000008 00000000 00000000 dir; - $.D.E 00000008 00000000 00000000 dir; - $.D.E.C 00000003 00000000 00000000 1 44
        - $.D.E.F 00000008 00000000 00000000 dir; + $.Cccc 00000003 00000000 00000000 1 44; + $.D 0000000c 00000000 00000001 dir
        + $.E 00000008 00000000 00000000 dir; + $.F 0000000c 00000000 00000000 dir",
    ),
    (
        "rename $.D.E $.E; rename $.D.B $.B; rename $.E $.D.E; cdir $.E",
        "- $.D.B 00000003 00000000 00000000 1 43; + $.B 00000003 00000000 00000000 1 43; + $.E 00000008 00000000 00000000 dir",
    ),
    (
        "rename $.D.B $.B; rename $.D.A $.A; save $.B 00000000 00000000 45; delete $.A",
        "- $.D.A 00000003 00000000 00000000 2 4142; - $.D.B 00000003 00000000 00000000 1 43; + $.B 00000003 00000000 00000000 1 45",
    ),
];

// A directory further down is full.
const FULL_BELOW: Start = Start {
    discs: BIG,
    steps: &[
        Step::Lines(
            "cdir $.D; cdir $.D.E; cdir $.D.E.F; cdir $.D.E.G; cdir $.D.E.G.H; save $.A 00000000 00000000 4142
            save $.B 00000000 00000000 43; save $.D.E.C 00000000 00000000 44",
        ),
        Step::Files("$.D.E", 60, 0),
    ],
    read_only: false,
};

const BELOW: [Script; 4] = [
    (
        "create $.D.E.New1 00000000 00000000 0; cdir $.D.E.New2; rename $.B $.D.E.B; rename $.D.E.G $.G
        save $.D.E.New3 00000000 00000000 01",
        "- $.B 00000003 00000000 00000000 1 43; - $.D.E.G 00000008 00000000 00000000 dir; - $.D.E.G.H 00000008 00000000 00000000 dir
        + $.G 00000008 00000000 00000000 dir; + $.G.H 00000008 00000000 00000000 dir; + $.D.E.B 00000003 00000000 00000000 1 43
        + $.D.E.New1 00000003 00000000 00000000 0; + $.D.E.New2 00000008 00000000 00000000 dir
        + $.D.E.New3 00000003 00000000 00000000 1 01",
    ),
    (
        "cdir $.D.E.New1; save $.D.E.New1.A 00000000 00000000 01; save $.D.E.New2 00000000 00000000 02; delete $.D.E.N00",
        "- $.D.E.N00 00000003 fffffd00 00000000 0; + $.D.E.New1 00000008 00000000 00000000 dir
        + $.D.E.New2 00000003 00000000 00000000 1 02; + $.D.E.New1.A 00000003 00000000 00000000 1 01",
    ),
    (
        "rename $.B $.D.E.B; rename $.A $.D.E.A; rename $.D.E.G $.D.G; cdir $.D.E.F.I",
        "- $.A 00000003 00000000 00000000 2 4142; - $.B 00000003 00000000 00000000 1 43; - $.D.E.G 00000008 00000000 00000000 dir
        - $.D.E.G.H 00000008 00000000 00000000 dir; + $.D.G 00000008 00000000 00000000 dir
        + $.D.E.A 00000003 00000000 00000000 2 4142; + $.D.E.B 00000003 00000000 00000000 1 43
        + $.D.G.H 00000008 00000000 00000000 dir; + $.D.E.F.I 00000008 00000000 00000000 dir",
    ),
    (
        "rename $.D.E.G $.D.E.Name_of_more_than_thirty_bytes_; rename $.D.E.F $.F; rename $.F $.D.E.G_; delete $.D.E.G_",
        "- $.D.E.F 00000008 00000000 00000000 dir; - $.D.E.G 00000008 00000000 00000000 dir
        - $.D.E.G.H 00000008 00000000 00000000 dir; + $.D.E.Name_of_more_than_thirty_bytes_ 00000008 00000000 00000000 dir
        + $.D.E.Name_of_more_than_thirty_bytes_.H 00000008 00000000 00000000 dir",
    ),
];

// The directory that is full shares its identifier.
const FULL_BESIDE: Start = Start {
    discs: &[WITH_FILE, WITH_DIRECTORY],
    steps: &[
        Step::Lines(
            "cdir $.D.G; cdir $.D.G.H; cdir $.D.I; save $.A 00000000 00000000 4142; save $.B 00000000 00000000 43",
        ),
        Step::Files("$.D", 60, 0),
    ],
    read_only: false,
};

const BESIDE: [Script; 4] = [
    (
        "create $.D.New1 00000000 00000000 0; cdir $.D.New2; create $.D.New3 00000000 00000000 7; cdir $.D.G.J",
        "+ $.D.New1 00000003 00000000 00000000 0; + $.D.New2 00000008 00000000 00000000 dir
        + $.D.New3 00000003 00000000 00000000 7 00000000000000; + $.D.G.J 00000008 00000000 00000000 dir",
    ),
    (
        "save $.D.New1 00000000 00000000 01; rename $.D.G $.G",
        "- $.D.G 00000008 00000000 00000000 dir; - $.D.G.H 00000008 00000000 00000000 dir; + $.G 00000008 00000000 00000000 dir
        + $.D.New1 00000003 00000000 00000000 1 01; + $.G.H 00000008 00000000 00000000 dir",
    ),
    (
        "rename $.D.G $.D.Name_of_more_than_thirty_bytes_; rename $.D.I $.I",
        "- $.D.G 00000008 00000000 00000000 dir; - $.D.I 00000008 00000000 00000000 dir; - $.D.G.H 00000008 00000000 00000000 dir
        + $.I 00000008 00000000 00000000 dir; + $.D.Name_of_more_than_thirty_bytes_ 00000008 00000000 00000000 dir
        + $.D.Name_of_more_than_thirty_bytes_.H 00000008 00000000 00000000 dir",
    ),
    (
        "rename $.B $.D.B; rename $.A $.D.A; rename $.D.N00 $.N00",
        "- $.A 00000003 00000000 00000000 2 4142; - $.B 00000003 00000000 00000000 1 43; - $.D.N00 00000003 fffffd00 00000000 0
        + $.N00 00000003 fffffd00 00000000 0; + $.D.A 00000003 00000000 00000000 2 4142; + $.D.B 00000003 00000000 00000000 1 43",
    ),
];

const FULL_BESIDE_FILE: Start = Start {
    discs: &[WITH_FILE],
    ..FULL_BESIDE
};

// The file that shares the identifier comes into the directory, and then nothing has the identifier; or it goes first.
const BESIDE_FILE: [Script; 2] = [
    (
        "rename $.S $.D.S; save $.D.T 00000000 00000000 01; rename $.D.S $.S; delete $.S",
        "- $.S 00000003 fffffd00 00000001 2 4869; + $.D.T 00000003 00000000 00000000 1 01",
    ),
    (
        "delete $.S; create $.D.New1 00000000 00000000 0; create $.D.New2 00000000 00000000 0
        create $.D.Name_of_more_than_thirty_bytes_ 00000000 00000000 0; save $.S 00000000 00000000 01",
        "- $.S 00000003 fffffd00 00000001 2 4869; + $.S 00000003 00000000 00000000 1 01
        + $.D.Name_of_more_than_thirty_bytes_ 00000003 00000000 00000000 0; + $.D.New1 00000003 00000000 00000000 0
        + $.D.New2 00000003 00000000 00000000 0",
    ),
];

// The second directory has room behind it in its identifier, the first has none.
const FULL_BEHIND: Start = Start {
    discs: &[WITH_DIRECTORY],
    steps: &[
        Step::Lines("cdir $.E.G; save $.E.A 00000000 00000000 4142"),
        Step::Files("$.E", 61, 0),
    ],
    read_only: false,
};

const BEHIND: Script = (
    "create $.E.New1 00000000 00000000 0; create $.E.New2 00000000 00000000 0; cdir $.E.New3; save $.D.A 00000000 00000000 01
    rename $.E.G $.D.G",
    "- $.E.G 00000008 00000000 00000000 dir; + $.D.A 00000003 00000000 00000000 1 01; + $.D.G 00000008 00000000 00000000 dir
    + $.E.New1 00000003 00000000 00000000 0; + $.E.New2 00000003 00000000 00000000 0; + $.E.New3 00000008 00000000 00000000 dir",
);

#[test]
fn roots_grow_by_new_objects(rt: HostRuntime) -> Result<(), Fail> {
    try_all(rt.alloc(), &FULL_ROOT, &NEW_IN_ROOT)
}

#[test]
fn roots_grow_by_renames(rt: HostRuntime) -> Result<(), Fail> {
    try_all(rt.alloc(), &FULL_ROOT, &RENAMED_IN_ROOT)
}

#[test]
fn directories_below_the_root_grow(rt: HostRuntime) -> Result<(), Fail> {
    try_all(rt.alloc(), &FULL_BELOW, &BELOW)
}

#[test]
fn directories_that_share_grow(rt: HostRuntime) -> Result<(), Fail> {
    try_all(rt.alloc(), &FULL_BESIDE, &BESIDE)?;
    try_all(rt.alloc(), &FULL_BESIDE_FILE, &BESIDE_FILE)?;
    try_all(rt.alloc(), &FULL_BEHIND, &[BEHIND])
}
