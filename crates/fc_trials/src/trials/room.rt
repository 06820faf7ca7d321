// Discs in pieces and nearly full, and each refusal for want of space or of room.
use super::{Script, Start, try_all};
use crate::discs::{D, E, E_PLUS, F, F_PLUS, L, Step, TWO_IDENTIFIERS};
use std::test::Fail;

// Every second one of the files in a directory went.
const IN_PIECES: Start = Start {
    discs: &[D, L, E, F, E_PLUS, F_PLUS],
    steps: &[
        Step::Lines("cdir $.D"),
        Step::Files("$.D", 30, 2048),
        Step::Thinned("$.D", 30),
    ],
    read_only: false,
};

const PIECES: Script = (
    "create $.A 00000000 00000000 7000; create $.B 00000000 00000000 2048; create $.C 00000000 00000000 30000; cdir $.E
    save $.D.N01 00000000 00000000 01; create $.D.N03 00000000 00000000 12000; delete $.A; delete $.D.N05; rename $.D.N07 $.E.N07
    delete $.C; create $.A 00000000 00000000 40000; rename $.B $.D.B; delete $.E.N07; delete $.E",
    "- $.D.N01 00000003 fffffd00 00000000 2048 zeros; - $.D.N03 00000003 fffffd00 00000000 2048 zeros
    - $.D.N05 00000003 fffffd00 00000000 2048 zeros; - $.D.N07 00000003 fffffd00 00000000 2048 zeros
    + $.A 00000003 00000000 00000000 40000 zeros; + $.D.B 00000003 00000000 00000000 2048 zeros
    + $.D.N01 00000003 00000000 00000000 1 01; + $.D.N03 00000003 00000000 00000000 12000 zeros",
);

// ---- old maps

// 15 holes of 1024 bytes
const SMALL_HOLES: Start = Start {
    discs: &[D, L],
    steps: &[
        Step::Lines("cdir $.D; save $.Empty 00000000 00000000 -"),
        Step::Files("$.D", 30, 1024),
        Step::Rest("$.Full"),
        Step::Thinned("$.D", 30),
    ],
    read_only: false,
};

const SHORT_HOLES: Script = (
    "create $.A 00000000 00000000 1025 => CompactionRequired; create $.A 00000000 00000000 15361 => DiscFull
    create $.D.N01 00000000 00000000 1025 => CompactionRequired; create $.D.N01 00000000 00000000 15361 => DiscFull
    cdir $.E => CompactionRequired; create $.A 00000000 00000000 1024; save $.Empty 00000000 00000000 01",
    "- $.Empty 00000003 00000000 00000000 0; + $.A 00000003 00000000 00000000 1024 zeros
    + $.Empty 00000003 00000000 00000000 1 01",
);

// The map has 82 holes.
const ALL_HOLES: Start = Start {
    discs: &[D, L],
    steps: &[
        Step::Lines("cdir $.A; cdir $.B; cdir $.C; cdir $.D"),
        Step::Files("$.A", 44, 256),
        Step::Files("$.B", 44, 256),
        Step::Files("$.C", 44, 256),
        Step::Files("$.D", 44, 256),
        Step::Thinned("$.A", 44),
        Step::Thinned("$.B", 44),
        Step::Thinned("$.C", 44),
        Step::Thinned("$.D", 30),
    ],
    read_only: false,
};

const HOLES: Script = (
    "delete $.D.N41 => MapFull; save $.D.N37 00000000 00000000 - => MapFull; create $.D.N39 00000000 00000000 4000 => MapFull
    create $.D.N39 00000000 00000000 256; delete $.A.N01; delete $.D.N41 => MapFull; cdir $.F; rename $.D.N40 $.F.N40
    delete $.F.N40",
    "- $.A.N01 00000003 fffffd00 00000000 256 zeros; - $.D.N39 00000003 fffffd00 00000000 256 zeros
    - $.D.N40 00000003 fffffd00 00000000 256 zeros; + $.F 00000008 00000000 00000000 dir
    + $.D.N39 00000003 00000000 00000000 256 zeros",
);

// ---- small directories

// The root has no place for an entry more.
const FULL_L: Start = Start {
    discs: &[L],
    steps: &[Step::Lines("cdir $.D"), Step::Files("$", 46, 0)],
    read_only: false,
};

const FULL_SMALL: Start = Start {
    discs: &[D, E, F],
    steps: &[Step::Lines("cdir $.D"), Step::Files("$", 76, 0)],
    read_only: false,
};

const NO_ENTRY: Script = (
    "create $.A 00000000 00000000 0 => DirFull; save $.A 00000000 00000000 01 => DirFull; cdir $.A => DirFull; rename $.N00 $.A
    rename $.A $.D.A; rename $.D.A $.B; create $.C 00000000 00000000 0 => DirFull; save $.N01 00000000 00000000 01; rename $.D $.E
    cdir $.E.F; create $.C 00000000 00000000 900000 => DirFull; rename $.E.F $.F => DirFull; delete $.N02; rename $.E.F $.F",
    "- $.D 00000008 00000000 00000000 dir; - $.N00 00000003 fffffd00 00000000 0; - $.N01 00000003 fffffd00 00000000 0
    - $.N02 00000003 fffffd00 00000000 0; + $.B 00000003 fffffd00 00000000 0; + $.E 00000008 00000000 00000000 dir
    + $.F 00000008 00000000 00000000 dir; + $.N01 00000003 00000000 00000000 1 01",
);

// ---- nothing is left

const FULL: Start = Start {
    discs: &[D, L, F, F_PLUS],
    steps: &[
        Step::Lines("cdir $.D; save $.Empty 00000000 00000000 -"),
        Step::Rest("$.Full"),
    ],
    read_only: false,
};

const NOTHING: Script = (
    "save $.A 00000000 00000000 01 => DiscFull; create $.A 00000000 00000000 1 => DiscFull
    save $.Empty 00000000 00000000 01 => DiscFull; create $.Empty 00000000 00000000 1 => DiscFull; cdir $.E => DiscFull
    create $.A 00000000 00000000 0; rename $.A $.D.A; set $.D.A 00000000 00000001 RW; delete $.Empty",
    "- $.Empty 00000003 00000000 00000000 0; + $.D.A 00000003 00000000 00000001 0",
);

// Two files in the root share an identifier.
const FULL_SHARED: Start = Start {
    discs: &[E, E_PLUS],
    steps: &[
        Step::Lines(
            "cdir $.D; save $.D.Empty 00000000 00000000 -; save $.Empty 00000000 00000000 -
            save $.S 00000000 00000000 4142; save $.T 00000000 00000000 43",
        ),
        Step::Rest("$.Full"),
    ],
    read_only: false,
};

const NO_COPY: Script = (
    "save $.D.A 00000000 00000000 01 => DiscFull; create $.D.A 00000000 00000000 1 => DiscFull
    create $.Empty 00000000 00000000 2048 => DiscFull; create $.S 00000000 00000000 2048 => DiscFull
    save $.D.Empty 00000000 00000000 01 => DiscFull; cdir $.E => DiscFull; rename $.T $.D.T => DiscFull
    rename $.S $.D.S => DiscFull; rename $.Full $.D.Full; set $.T 00000000 00000001 RW; delete $.S; rename $.T $.D.T
    save $.S 00000000 00000000 02 => DiscFull; delete $.D.Full; save $.S 00000000 00000000 02; save $.D.A 00000000 00000000 01
    cdir $.E",
    "- $.Full 00000003 00000000 00000000 811008; - $.S 00000003 00000000 00000000 2 4142
    - $.T 00000003 00000000 00000000 1 43; + $.E 00000008 00000000 00000000 dir; + $.S 00000003 00000000 00000000 1 02
    + $.D.A 00000003 00000000 00000000 1 01; + $.D.T 00000003 00000000 00000001 1 43",
);

// No identifier is left, and two files in the root share one.
const NO_IDENTIFIER_LEFT: Start = Start {
    discs: &[TWO_IDENTIFIERS],
    steps: &[Step::Lines(
        "create $.E 00000000 00000000 0; cdir $.D; create $.D.E 00000000 00000000 0; save $.S 00000000 00000000 4142
            save $.T 00000000 00000000 43",
    )],
    read_only: false,
};

const NO_IDENTIFIER: Script = (
    "create $.A 00000000 00000000 2000 => IdsFull; create $.S 00000000 00000000 3000 => IdsFull
    create $.E 00000000 00000000 3000 => IdsFull; save $.D.A 00000000 00000000 01 => IdsFull
    save $.D.E 00000000 00000000 01 => IdsFull; cdir $.A => IdsFull; rename $.T $.D.T => IdsFull
    save $.A 00000000 00000000 01 => IdsFull; delete $.A => NotFound; delete $.T; rename $.S $.D.S; delete $.D.S; cdir $.A",
    "- $.S 00000003 00000000 00000000 2 4142; - $.T 00000003 00000000 00000000 1 43; + $.A 00000008 00000000 00000000 dir",
);

// ---- growth

// The root has to grow, two files in a directory share an identifier, and so little is left that first the growth has no space, and
// then what else is needed.
const LITTLE: Start = Start {
    discs: &[E_PLUS],
    steps: &[
        Step::Lines(
            "cdir $.D; save $.D.S 00000000 00000000 4142; save $.D.T 00000000 00000000 43; create $.D.Spare 00000000 00000000 4096
            create $.D.Full 00000000 00000000 804864",
        ),
        Step::Files("$", 61, 0),
    ],
    read_only: false,
};

const NO_GROWTH: Script = (
    "create $.New 00000000 00000000 0 => DiscFull; save $.New 00000000 00000000 01 => DiscFull; cdir $.New => DiscFull
    rename $.N00 $.Name_of_more_than_thirty_bytes_ => DiscFull; rename $.D.Full $.New => DiscFull; rename $.D.T $.New => DiscFull
    delete $.D.Spare; save $.New 00000000 00000000 01 => DiscFull; cdir $.New => DiscFull; rename $.D.T $.New => DiscFull
    create $.New 00000000 00000000 0; cdir $.New2",
    "- $.D.Spare 00000003 00000000 00000000 4096 zeros; + $.New 00000003 00000000 00000000 0
    + $.New2 00000008 00000000 00000000 dir",
);

// The root has to grow, and needs an identifier for that, of which none is left.
const FULL_WITHOUT_IDENTIFIER: Start = Start {
    discs: &[TWO_IDENTIFIERS],
    steps: &[
        Step::Lines(
            "cdir $.D; save $.D.S 00000000 00000000 4142; save $.D.T 00000000 00000000 43; create $.D.E 00000000 00000000 0
            create $.A 00000000 00000000 0",
        ),
        Step::LongNames(7),
    ],
    read_only: false,
};

const NO_GROWTH_BY_IDENTIFIER: Script = (
    "create $.New 00000000 00000000 0 => IdsFull; save $.New 00000000 00000000 01 => IdsFull; cdir $.New => IdsFull
    rename $.A $.Name_of_more_than_thirty_bytes_ => IdsFull; rename $.D.E $.New => IdsFull; rename $.D.T $.New => IdsFull
    delete $.D.S; rename $.D.T $.New => IdsFull; delete $.D.T; cdir $.New => IdsFull; save $.New 00000000 00000000 01 => IdsFull
    create $.New 00000000 00000000 0",
    "- $.D.S 00000003 00000000 00000000 2 4142; - $.D.T 00000003 00000000 00000000 1 43; + $.New 00000003 00000000 00000000 0",
);

#[test]
fn pieces_are_taken(rt: HostRuntime) -> Result<(), Fail> {
    try_all(rt.alloc(), &IN_PIECES, &[PIECES])
}

#[test]
fn old_maps_have_no_hole(rt: HostRuntime) -> Result<(), Fail> {
    try_all(rt.alloc(), &SMALL_HOLES, &[SHORT_HOLES])?;
    try_all(rt.alloc(), &ALL_HOLES, &[HOLES])
}

#[test]
fn small_directories_have_no_entry(rt: HostRuntime) -> Result<(), Fail> {
    try_all(rt.alloc(), &FULL_L, &[NO_ENTRY])?;
    try_all(rt.alloc(), &FULL_SMALL, &[NO_ENTRY])
}

#[test]
fn discs_have_no_space(rt: HostRuntime) -> Result<(), Fail> {
    try_all(rt.alloc(), &FULL, &[NOTHING])?;
    try_all(rt.alloc(), &FULL_SHARED, &[NO_COPY])
}

#[test]
fn maps_have_no_identifier(rt: HostRuntime) -> Result<(), Fail> {
    try_all(rt.alloc(), &NO_IDENTIFIER_LEFT, &[NO_IDENTIFIER])
}

#[test]
fn growth_has_no_space(rt: HostRuntime) -> Result<(), Fail> {
    try_all(rt.alloc(), &LITTLE, &[NO_GROWTH])?;
    try_all(
        rt.alloc(),
        &FULL_WITHOUT_IDENTIFIER,
        &[NO_GROWTH_BY_IDENTIFIER],
    )
}
