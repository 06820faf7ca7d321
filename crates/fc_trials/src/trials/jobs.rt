// Each job over each kind of map, and each refusal that the tree gives.
use super::{Script, Start, try_all};
use crate::discs::{D, Disc, E, E_PLUS, F, F_PLUS, L, SPOILT, Step};
use std::test::Fail;

const MADE: &[Step] = &[Step::Lines(
    "cdir $.Docs; save $.Docs.Read 00000001 00000002 010203; save $.Docs.Me FFFFFF00 00000003 04; cdir $.None
        create $.Zeros 00000000 00000000 5000; save $.Empty 00000000 00000000 -; save $.Kept 12345678 9ABCDEF0 05
        set $.Kept 12345678 9ABCDEF0 RL",
)];

// Old maps, new ones with small directories, and new ones with big directories
const FORMATS: &[Disc] = &[D, L, E, F, E_PLUS, F_PLUS];

const EACH: Start = Start {
    discs: FORMATS,
    steps: MADE,
    read_only: false,
};

const FILES: Script = (
    "save $.A 00000000 00000000 4142; save $.a 00000001 00000002 434445; save $.A 00000000 00000000 -; save $.A 00000000 00000000 46
    create $.A 00000000 00000000 9000; create $.A FFFFFFFF FFFFFFFF 0; create $.B 00000000 00000000 0
    create $.B 00000000 00000000 1; save $.Docs.READ 00000000 00000000 00; save $.Docs.New 00000000 00000000 0102
    save $.Zeros 00000000 00000000 07; create $.Zeros 00000000 00000000 20000; save $.Empty 00000000 00000000 -
    save $.Empty 00000000 00000000 08; save $.Kept 00000000 00000000 01 => Locked; save $.Docs 00000000 00000000 01 => IsDirectory
    save $ 00000000 00000000 01 => IsDirectory; save $.Absent.A 00000000 00000000 01 => NotFound
    save $.Zeros.A 00000000 00000000 01 => NotDirectory; create $.Kept 00000000 00000000 1 => Locked
    create $.None 00000000 00000000 1 => IsDirectory; create $.Absent.A 00000000 00000000 1 => NotFound
    create $.Zeros.A 00000000 00000000 1 => NotDirectory",
    "- $.Empty 00000003 00000000 00000000 0; - $.Zeros 00000003 00000000 00000000 5000 zeros
    - $.Docs.Read 00000003 00000001 00000002 3 010203; + $.A 00000003 ffffffff ffffffff 0; + $.B 00000003 00000000 00000000 1 00
    + $.Empty 00000003 00000000 00000000 1 08; + $.Zeros 00000003 00000000 00000000 20000 zeros
    + $.Docs.New 00000003 00000000 00000000 2 0102; + $.Docs.Read 00000003 00000000 00000000 1 00",
);

const DIRECTORIES: Script = (
    "cdir $.A; cdir $.A.B; cdir $.A.B.C; save $.A.B.C.D 00000000 00000000 01; cdir $.A.b => Exists; cdir $ => Exists
    cdir $.Zeros => Exists; cdir $.Absent.A => NotFound; cdir $.Zeros.A => NotDirectory; delete $.A.B.C.D; delete $.A.B => NotEmpty
    delete $.A.B.C; cdir $.Docs.E",
    "+ $.A 00000008 00000000 00000000 dir; + $.A.B 00000008 00000000 00000000 dir; + $.Docs.E 00000008 00000000 00000000 dir",
);

const REMOVALS: Script = (
    "delete $.Docs => NotEmpty; delete $.Docs.Read; delete $.docs.ME; delete $.Docs; delete $.None; delete $.Zeros; delete $.Empty
    delete $.Kept => Locked; delete $.Absent => NotFound; delete $.Kept.Read => NotDirectory; delete $ => RootRefused
    set $.Kept 00000000 00000000 RW; delete $.Kept",
    "- $.Docs 00000008 00000000 00000000 dir; - $.Empty 00000003 00000000 00000000 0; - $.Kept 00000005 12345678 9abcdef0 1 05
    - $.None 00000008 00000000 00000000 dir; - $.Zeros 00000003 00000000 00000000 5000 zeros
    - $.Docs.Me 00000003 ffffff00 00000003 1 04; - $.Docs.Read 00000003 00000001 00000002 3 010203",
);

// Within a directory and across, of files and of directories
const RENAMES: Script = (
    "rename $.Zeros $.Nulls; rename $.Nulls $.NULLS; rename $.NULLS $.NULLS; rename $.None $.Some; rename $.Some $.A
    rename $.NULLS $.Docs.Nulls; rename $.Docs.Nulls $.A.Nulls; rename $.Docs $.A.Docs; rename $.A.Docs $.A.Papers
    rename $.A.Papers.Me $.Me; rename $.Empty $.A.Papers.Empty; rename $.A $.B; rename $.B.Papers $.Papers",
    "- $.Docs 00000008 00000000 00000000 dir; - $.Empty 00000003 00000000 00000000 0; - $.None 00000008 00000000 00000000 dir
    - $.Zeros 00000003 00000000 00000000 5000 zeros; - $.Docs.Me 00000003 ffffff00 00000003 1 04
    - $.Docs.Read 00000003 00000001 00000002 3 010203; + $.B 00000008 00000000 00000000 dir; + $.Me 00000003 ffffff00 00000003 1 04
    + $.Papers 00000008 00000000 00000000 dir; + $.B.Nulls 00000003 00000000 00000000 5000 zeros
    + $.Papers.Empty 00000003 00000000 00000000 0; + $.Papers.Read 00000003 00000001 00000002 3 010203",
);

const RENAME_REFUSALS: Script = (
    "rename $.Docs $.Docs.A => IntoItself; rename $.Docs $.None => Exists; rename $.Zeros $.Docs.Read => Exists
    rename $ $.A => RootRefused; rename $.Absent $.A => NotFound; rename $.Zeros $ => Exists; rename $.Zeros $.Absent.A => NotFound
    rename $.Zeros $.Kept.A => NotDirectory; rename $.Kept $.A => Locked; rename $.Kept $.Docs.A => Locked
    rename $.Docs $.None.A.B => NotFound; rename $.Zeros.A $.A => NotDirectory; rename $.Docs $.Docs
    rename $.Kept $.Kept => Locked",
    "",
);

const WORDS: Script = (
    "set $.Docs.Read 89ABCDEF 01234567 WL; set $.Docs 00000000 FFFFFFFF L; set $.Kept 12345678 9ABCDEF0 -; delete $.Kept
    set $.Absent 00000000 00000000 R => NotFound; set $.Zeros.Read 00000000 00000000 R => NotDirectory
    set $ 00000000 00000000 R => RootRefused; rename $.Docs $.A => Locked; set $.Empty 00000000 00000001 RW
    save $.Empty 00000000 00000000 01; set $.Empty 00000000 00000002 RWL",
    "- $.Docs 00000008 00000000 00000000 dir; - $.Empty 00000003 00000000 00000000 0; - $.Kept 00000005 12345678 9abcdef0 1 05
    - $.Docs.Read 00000003 00000001 00000002 3 010203; + $.Docs 0000000c 00000000 ffffffff dir
    + $.Empty 00000007 00000000 00000002 1 01; + $.Docs.Read 00000006 89abcdef 01234567 3 010203",
);

const ATTRIBUTES: Script = (
    "mark $.Kept 33; mark $.None 04; mark $.Docs.Read 3B; mark $.Absent 00 => NotFound; mark $.Kept.A 00 => NotDirectory
    mark $ 00 => RootRefused; delete $.Kept; delete $.None => Locked; mark $.None 00; delete $.None
    set $.Kept 00000000 00000000 W => NotFound; rename $.Kept $.Docs.Kept => NotFound; cdir $.Docs.A
    save $.Zeros 00000000 00000000 01",
    "- $.Kept 00000005 12345678 9abcdef0 1 05; - $.None 00000008 00000000 00000000 dir
    - $.Zeros 00000003 00000000 00000000 5000 zeros; - $.Docs.Read 00000003 00000001 00000002 3 010203
    + $.Zeros 00000003 00000000 00000000 1 01; + $.Docs.A 00000008 00000000 00000000 dir
    + $.Docs.Read 00000033 00000001 00000002 3 010203",
);

// Nothing of a volume that is mounted for reading only is changed, and the other reasons come first.
const UNWRITTEN: Start = Start {
    read_only: true,
    ..EACH
};

const UNCHANGED: Script = (
    "save $.A 00000000 00000000 01 => ReadOnly; create $.A 00000000 00000000 1 => ReadOnly; cdir $.A => ReadOnly
    delete $.Zeros => ReadOnly; delete $.Kept => Locked; rename $.Zeros $.A => ReadOnly
    set $.Zeros 00000000 00000000 R => ReadOnly; set $ 00000000 00000000 R => RootRefused; cdir $.Docs => Exists
    rename $.Absent $.A => NotFound; save $.Kept 00000000 00000000 01 => Locked; delete $.Docs => NotEmpty
    rename $.Docs $.Docs.A => IntoItself",
    "",
);

const UNMARKED: Script = (
    "mark $.Zeros 33 => ReadOnly; mark $.Kept 00 => ReadOnly; mark $ 00 => RootRefused; mark $.Absent 00 => NotFound",
    "",
);

// Small directories take names of ten bytes at most.
const SMALL: Start = Start {
    discs: &[D, L, E, F],
    ..EACH
};

const LONG_NAMES: Script = (
    "save $.Longer_than_ten 00000000 00000000 01 => BadName; create $.Longer_than_ten 00000000 00000000 0 => BadName
    cdir $.Longer_than_ten => BadName; rename $.Zeros $.Longer_than_ten => BadName",
    "",
);

// One copy of the map isn't sound, and each job makes it so first.
const UNEQUAL: Start = Start {
    discs: SPOILT,
    ..EACH
};

const FIRST: [Script; 10] = [
    (
        "save $.A 00000000 00000000 4142",
        "+ $.A 00000003 00000000 00000000 2 4142",
    ),
    (
        "save $.Empty 00000000 00000000 4142",
        "- $.Empty 00000003 00000000 00000000 0; + $.Empty 00000003 00000000 00000000 2 4142",
    ),
    (
        "create $.B 00000000 00000000 2000",
        "+ $.B 00000003 00000000 00000000 2000 zeros",
    ),
    ("cdir $.A", "+ $.A 00000008 00000000 00000000 dir"),
    (
        "delete $.Zeros",
        "- $.Zeros 00000003 00000000 00000000 5000 zeros",
    ),
    (
        "rename $.None $.Some",
        "- $.None 00000008 00000000 00000000 dir; + $.Some 00000008 00000000 00000000 dir",
    ),
    (
        "rename $.Docs.Me $.Me",
        "- $.Docs.Me 00000003 ffffff00 00000003 1 04; + $.Me 00000003 ffffff00 00000003 1 04",
    ),
    (
        "set $.Docs 00000000 00000000 R",
        "- $.Docs 00000008 00000000 00000000 dir; + $.Docs 00000009 00000000 00000000 dir",
    ),
    (
        "mark $.Zeros 33",
        "- $.Zeros 00000003 00000000 00000000 5000 zeros; + $.Zeros 00000033 00000000 00000000 5000 zeros",
    ),
    ("delete $.Docs => NotEmpty", ""),
];

#[test]
fn files_are_saved_and_created(rt: HostRuntime) -> Result<(), Fail> {
    try_all(rt.alloc(), &EACH, &[FILES])
}

#[test]
fn directories_are_made(rt: HostRuntime) -> Result<(), Fail> {
    try_all(rt.alloc(), &EACH, &[DIRECTORIES])
}

#[test]
fn objects_are_deleted(rt: HostRuntime) -> Result<(), Fail> {
    try_all(rt.alloc(), &EACH, &[REMOVALS])
}

#[test]
fn objects_are_renamed(rt: HostRuntime) -> Result<(), Fail> {
    try_all(rt.alloc(), &EACH, &[RENAMES, RENAME_REFUSALS])
}

#[test]
fn words_and_attributes_are_set(rt: HostRuntime) -> Result<(), Fail> {
    try_all(rt.alloc(), &EACH, &[WORDS, ATTRIBUTES])
}

#[test]
fn what_may_not_be_written_is_refused(rt: HostRuntime) -> Result<(), Fail> {
    try_all(rt.alloc(), &UNWRITTEN, &[UNCHANGED, UNMARKED])?;
    try_all(rt.alloc(), &SMALL, &[LONG_NAMES])
}

#[test]
fn copies_are_made_equal(rt: HostRuntime) -> Result<(), Fail> {
    try_all(rt.alloc(), &UNEQUAL, &FIRST)
}
