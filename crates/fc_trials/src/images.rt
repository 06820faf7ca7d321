// Images by hand, for what neither `--new` nor any command makes. The checks were worked out by another program.

// A place, and the bytes from there on.
pub type Part = (usize, &'static [u8]);

// Runs of 16 bits in a map, where an identifier has 11: a place, the identifier of the first, and how many there are.
pub type Runs = (usize, u16, u16);

// An E+ of 96 KB whose root lies in the map's identifier.
pub const ROOT_IN_MAP: &[Part] = &[
    (
        0,
        b"-\x18\x82\xff\n\0\0\0\x0f\x07\0\0\0\x01 \x05\x03\x02\0\0\0\x80\x01",
    ),
    (48, b"\x01\0\0\0\0\x08"),
    (64, b"\x02\0\0\x80"),
    (159, b"\x80"),
    (2052, b"SBPr\x01\0\0\0\0\x08"),
    (2072, b"\x03\x02\0\0$\r"),
    (4088, b"oven\0\0\0\xfa"),
];

// An E+ of 96 KB with a directory `D` and a file `S` in one identifier of four sectors: the directory has the first two, the file the last.
pub const DIRECTORY_AND_FILE: &[Part] = &[
    (
        0,
        b"J8\x82\xff\n\0\0\0\x0f\x07\0\0\0\x01 \x05\x01\x03\0\0\0\x80\x01",
    ),
    (48, b"\x01\0\0\0\0\x08"),
    (64, b"\x02\x80\x03\x80\x04\0\0\x80"),
    (159, b"\x80"),
    (
        2052,
        b"SBPr\x01\0\0\0\0\x08\0\0\x02\0\0\0\x08\0\0\0\x01\x03\0\0$\r",
    ),
    (2089, b"\x08\0\0\x01\x04\0\0\x0b\0\0\0\x01"),
    (
        2109,
        b"\xfd\xff\xff\x01\0\0\0\x02\0\0\0\x04\x04\0\0\x03\0\0\0\x01\0\0\0\x04\0\0\0D\r\0\0S\r",
    ),
    (4088, b"oven\0\0\0\x14\0\0\0\0SBPr\x01\0\0\0\0\x08"),
    (4120, b"\x01\x03\0\0D\r"),
    (6136, b"oven\0\0\0}"),
    (7168, b"Hi"),
];

// The same with directories `D` and `E` in one identifier of six sectors, one after the other.
pub const TWO_DIRECTORIES: &[Part] = &[
    (
        0,
        b"ZH\x82\xff\n\0\0\0\x0f\x07\0\0\0\x01 \x05\x01\x03\0\0\0\x80\x01",
    ),
    (48, b"\x01\0\0\0\0\x08"),
    (64, b"\x02\x80\x03\x80\x04\0\0\0\0\x80"),
    (159, b"\x80"),
    (
        2052,
        b"SBPr\x01\0\0\0\0\x08\0\0\x02\0\0\0\x08\0\0\0\x01\x03\0\0$\r",
    ),
    (2089, b"\x08\0\0\x01\x04\0\0\x0b\0\0\0\x01"),
    (
        2117,
        b"\x08\0\0\x03\x04\0\0\x0b\0\0\0\x01\0\0\0\x04\0\0\0D\r\0\0E\r",
    ),
    (4088, b"oven\0\0\0\x1a\0\0\0\0SBPr\x01\0\0\0\0\x08"),
    (4120, b"\x01\x03\0\0D\r"),
    (6136, b"oven\0\0\0}\0\0\0\0SBPr\x01\0\0\0\0\x08"),
    (6168, b"\x01\x03\0\0E\r"),
    (8184, b"oven\0\0\0m"),
];

// A disc with big directories, a boot block and two zones, on which each run has 8 KB or more.
pub const WIDE_RUNS: &[Part] = &[
    (3520, b"\n\0\0\0\x0f\x09\0\0\0\x02\0\x1e\x01\x03\0\0\0@\x04"),
    (3560, b"\x01\0\0\0\x01\0\0\0\0\x08"),
    (3583, b"\x94"),
    (
        16384,
        b"\xdb\x08\x82\xff\n\0\0\0\x0f\x09\0\0\0\x02\0\x1e\x01\x03\0\0\0@\x04",
    ),
    (16428, b"\x01\0\0\0\x01\0\0\0\0\x08"),
    (16448, b"\x02\x80\0\x80"),
    (17408, b"88\x80\0\x02\x80\x03\x80"),
    (17475, b"\x80"),
    (24580, b"SBPr\x01\0\0\0\0\x08"),
    (24600, b"\x01\x03\0\0$\r"),
    (26616, b"oven\0\0\0{"),
];

// A disc with big directories and 19 zones, on which two identifiers have no run. Its root is empty, and begins two sectors into its
// own identifier.
pub const FEW_IDENTIFIERS: &[Part] = &[
    (3520, b"\x08\0\0\0\x0b\x05\0\0\0\x13 \0\x03\x03\0\0\0x\x12"),
    (3564, b"\x01\0\0\0\0\x08"),
    (3583, b"\xe4"),
    (
        565_248,
        b"`\0\x80\xff\x08\0\0\0\x0b\x05\0\0\0\x13 \0\x03\x03\0\0\0x\x12",
    ),
    (565_296, b"\x01\0\0\0\0\x08"),
    (565_312, b"\x02"),
    (565_327, b"\x80"),
    (565_504, b"\xc1\0\x80"),
    (565_760, b"\xc1\0\x80"),
    (566_016, b"\xc1\0\x80"),
    (566_272, b"\xc7\0\x80"),
    (566_528, b"\xc3\0\x80"),
    (566_784, b"\xdf\0\x80"),
    (567_040, b"\xc3\0\x80"),
    (567_296, b"\xc7\0\x80"),
    (567_552, b"\xb2\0\x80\0\x02"),
    (567_593, b"\x80\x03"),
    (567_609, b"\x80"),
    (567_808, b"@\0\x80"),
    (568_064, b"B\0\x80"),
    (568_320, b"@\0\x80"),
    (568_576, b"D\0\x80"),
    (568_832, b"F\0\x80"),
    (569_088, b"@\0\x80"),
    (569_344, b"\x19\xc8\x85"),
    (569_599, b"\x80\x18\x18\x80"),
    (569_855, b"\x80\x18\x18\x80"),
    (570_111, b"\x80"),
    (575_492, b"SBPr\x01\0\0\0\0\x08"),
    (575_512, b"\x03\x03\0\0$\r"),
    (577_528, b"oven\0\0\0z"),
];

// The runs on it that no object has.
pub const RUNS: &[Runs] = &[
    (565_328, 4, 88),
    (565_508, 92, 126),
    (565_764, 218, 126),
    (566_020, 344, 126),
    (566_276, 470, 126),
    (566_532, 596, 126),
    (566_788, 722, 126),
    (567_044, 848, 126),
    (567_300, 974, 126),
    (567_610, 1100, 99),
    (567_812, 1199, 126),
    (568_068, 1325, 126),
    (568_324, 1451, 126),
    (568_580, 1577, 126),
    (568_836, 1703, 126),
    (569_092, 1829, 126),
    (569_348, 1955, 91),
];

// Bytes put at a place, as far as there is room.
pub fn put_at(b: &mut [u8], at: usize, bytes: &[u8]) {
    for (place, byte) in b.iter_mut().skip(at).zip(bytes) {
        *place = *byte;
    }
}

// Parts put at their places.
pub fn put(b: &mut [u8], parts: &[Part]) {
    for (at, bytes) in parts {
        put_at(b, *at, bytes);
    }
}

// Runs put into a map.
pub fn put_runs(b: &mut [u8], runs: &Runs) {
    let (place, first, count) = runs;
    let mut at = *place;
    for i in 0..*count {
        let run = first.saturating_add(i) | 0x8000;
        put_at(b, at, &run.to_le_bytes());
        at = at.saturating_add(2);
    }
}
