// Files that lie in what others of their directory leave of an identifier, or share one with a directory.
use super::{Script, Start, try_all};
use crate::discs::{E, E_PLUS, Step, WIDE, WITH_DIRECTORY, WITH_FILE};
use std::test::Fail;

// Files lie in the slack of others, in two directories.
const SLACK: Start = Start {
    discs: &[E, E_PLUS, WIDE],
    steps: &[Step::Lines(
        "cdir $.D; cdir $.D.E; save $.A 00000000 00000000 4142; save $.B 00000000 00000000 43
            create $.D.A 00000000 00000000 3000; save $.D.B 00000000 00000000 4445; save $.D.C 00000000 00000000 46
            create $.D.F 00000000 00000000 1024",
    )],
    read_only: false,
};

const SAVED: Script = (
    "save $.C 00000000 00000000 47; save $.C 00000000 00000000 4849; create $.C 00000000 00000000 1024
    create $.C 00000000 00000000 1025; save $.B 00000000 00000000 -; save $.A 00000000 00000000 4A
    create $.A 00000000 00000000 5000; save $.A 00000000 00000000 4B; save $.D.B 00000000 00000000 4C
    create $.D.B 00000000 00000000 2048; save $.D.X 00000000 00000000 4D; save $.D.Y 00000000 00000000 4E
    save $.D.E.X 00000000 00000000 4F; save $.D.E.Y 00000000 00000000 50",
    "- $.A 00000003 00000000 00000000 2 4142; - $.B 00000003 00000000 00000000 1 43; - $.D.B 00000003 00000000 00000000 2 4445
    + $.A 00000003 00000000 00000000 1 4b; + $.B 00000003 00000000 00000000 0; + $.C 00000003 00000000 00000000 1025 zeros
    + $.D.B 00000003 00000000 00000000 2048 zeros; + $.D.X 00000003 00000000 00000000 1 4d; + $.D.Y 00000003 00000000 00000000 1 4e
    + $.D.E.X 00000003 00000000 00000000 1 4f; + $.D.E.Y 00000003 00000000 00000000 1 50",
);

const DELETED: Script = (
    "delete $.A; delete $.B; save $.B 00000000 00000000 51; delete $.D.A; save $.D.A 00000000 00000000 52; delete $.D.B
    delete $.D.C; delete $.D.F; delete $.D.A; delete $.B; delete $.D.E; delete $.D",
    "- $.A 00000003 00000000 00000000 2 4142; - $.B 00000003 00000000 00000000 1 43; - $.D 00000008 00000000 00000000 dir
    - $.D.A 00000003 00000000 00000000 3000 zeros; - $.D.B 00000003 00000000 00000000 2 4445
    - $.D.C 00000003 00000000 00000000 1 46; - $.D.E 00000008 00000000 00000000 dir; - $.D.F 00000003 00000000 00000000 1024 zeros",
);

// A file that shares its identifier is copied if it comes into another directory.
const COPIED: Script = (
    "rename $.B $.D.E.B; rename $.A $.D.E.A; rename $.D.C $.C; rename $.D.B $.B; rename $.D.A $.A; rename $.D.F $.D.E.F
    rename $.D.E.A $.D.E.Z; rename $.D.E.B $.D.B; rename $.D.E $.E; rename $.E.Z $.D.Z; save $.C 00000000 00000000 53; delete $.C",
    "- $.A 00000003 00000000 00000000 2 4142; - $.B 00000003 00000000 00000000 1 43; - $.D.A 00000003 00000000 00000000 3000 zeros
    - $.D.B 00000003 00000000 00000000 2 4445; - $.D.C 00000003 00000000 00000000 1 46; - $.D.E 00000008 00000000 00000000 dir
    - $.D.F 00000003 00000000 00000000 1024 zeros; + $.A 00000003 00000000 00000000 3000 zeros
    + $.B 00000003 00000000 00000000 2 4445; + $.E 00000008 00000000 00000000 dir; + $.D.B 00000003 00000000 00000000 1 43
    + $.D.Z 00000003 00000000 00000000 2 4142; + $.E.F 00000003 00000000 00000000 1024 zeros",
);

const BESIDE_FILE: Start = Start {
    discs: &[WITH_FILE],
    steps: &[],
    read_only: false,
};

const FILE: [Script; 2] = [
    (
        "rename $.S $.D.S; rename $.D.S $.T; save $.D.S 00000000 00000000 01; delete $.T; delete $.D.S; rename $.D $.DD; delete $.DD",
        "- $.D 0000000b 00000000 00000000 dir; - $.S 00000003 fffffd00 00000001 2 4869",
    ),
    (
        "save $.S 00000000 00000000 0102; save $.U 00000000 00000000 03; set $.S 00000000 00000001 RW; cdir $.D.E; delete $.D.E
        delete $.D; delete $.S",
        "- $.D 0000000b 00000000 00000000 dir; - $.S 00000003 fffffd00 00000001 2 4869; + $.U 00000003 00000000 00000000 1 03",
    ),
];

const BESIDE_DIRECTORY: Start = Start {
    discs: &[WITH_DIRECTORY],
    ..BESIDE_FILE
};

const DIRECTORY: Script = (
    "save $.D.A 00000000 00000000 01; rename $.D $.E.D; rename $.E.D.A $.E.A; delete $.E.D; save $.E.B 00000000 00000000 01
    rename $.E $.F; delete $.F.A; delete $.F.B; delete $.F",
    "- $.D 0000000b 00000000 00000000 dir; - $.E 0000000b 00000000 00000000 dir",
);

#[test]
fn files_share_identifiers(rt: HostRuntime) -> Result<(), Fail> {
    try_all(rt.alloc(), &SLACK, &[SAVED, DELETED])
}

#[test]
fn files_that_share_are_copied(rt: HostRuntime) -> Result<(), Fail> {
    try_all(rt.alloc(), &SLACK, &[COPIED])
}

#[test]
fn directories_share_identifiers(rt: HostRuntime) -> Result<(), Fail> {
    try_all(rt.alloc(), &BESIDE_FILE, &FILE)?;
    try_all(rt.alloc(), &BESIDE_DIRECTORY, &[DIRECTORY])
}
