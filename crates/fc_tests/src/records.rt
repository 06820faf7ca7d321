// Records whose bytes were worked out by other programs, and the faults of others: the program shows no more of these than the
// offset of a wrong root.
use crate::images::{PLUS, Part, RECORD_E, RECORD_E_PLUS, RECORD_F, put, put_at};
use fc_record::measures::geometry;
use fc_record::{RecordFault, read_record};
use std::test::Fail;

const RECORD_F_PLUS: &[u8] = b"\x0a\x0a\x02\x04\x0f\x06\x01\0\0\x04\x40\x06\x01\x03\0\0\0\0\x19";

// Sixteen zones with sectors of 256 bytes, 11 bits an identifier and 256 bytes a bit.
const RECORD_16: &[u8] = b"\x08\0\0\0\x0b\x08\0\0\0\x10\x20\0\0\x02\0\0\0\x20\x7c";

// Records, and what they say: zone size, disc bits, q, min, identifiers in a zone, the map's place.
const GOOD: &[(&[Part], [u64; 6])] = &[
    (&[(0, RECORD_E)], [6880, 6400, 8, 16, 430, 0]),
    (&[(0, RECORD_F)], [6592, 25600, 16, 16, 412, 0xc6800]),
    (
        &[(0, RECORD_E_PLUS), (44, PLUS)],
        [6880, 6400, 8, 16, 430, 0],
    ),
    (
        &[(0, RECORD_F_PLUS), (44, PLUS)],
        [6592, 25600, 16, 16, 412, 0xc6800],
    ),
    (&[(0, RECORD_16)], [2016, 31776, 1, 12, 168, 4_005_888]),
];

// Records and their bytes from byte 44 on, a change to them, and the field and value that are wrong then.
const BAD: &[(&[u8], &[u8], usize, &[u8], u8, u64)] = &[
    (RECORD_E, b"", 0, b"\x0b", 0, 11),
    (RECORD_E, b"", 0, b"\x07", 0, 7),
    (RECORD_E, b"", 4, b"\x0c", 4, 12),
    (RECORD_E, b"", 4, b"\x10", 4, 16),
    (RECORD_E_PLUS, PLUS, 4, b"\x14", 4, 20),
    (RECORD_E, b"", 5, b"\x04", 5, 4),
    (RECORD_E, b"", 5, b"\x15", 5, 21),
    (RECORD_E, b"", 9, b"\0", 9, 0),
    (RECORD_E, b"", 10, b"\x1f\0", 10, 31),
    (RECORD_E, b"", 10, b"\x11\x1e", 10, 0x1e11),
    (RECORD_E, b"", 10, b"\x10\x1e", 16, 0xc8000),
    (RECORD_E, b"", 10, b"\xff\xff", 10, 0xffff),
    (RECORD_E, b"", 16, b"\0\0\0\0", 16, 0),
    (RECORD_E, b"", 16, b"\x80\x80\x0c\0", 16, 0xc8080),
    (RECORD_E, b"", 36, b"\x01\0\0\0", 16, 0x1_000c_8000),
    (
        RECORD_E,
        b"",
        36,
        b"\xff\xff\xff\xff",
        16,
        0xffff_ffff_000c_8000,
    ),
    (RECORD_E, b"", 9, b"\x02", 16, 0xc8000),
    (RECORD_E, b"", 42, b"\x01", 16, 0xc8000),
    (RECORD_E, b"", 12, b"\xff\x01\0\0", 12, 0x1ff),
    (RECORD_E, b"", 12, b"\0\0\0\x01", 12, 0x100_0000),
    (RECORD_E_PLUS, PLUS, 48, b"\0\0\0\0", 48, 0),
    (RECORD_E_PLUS, PLUS, 48, b"\0\x0c\0\0", 48, 3072),
    (RECORD_E_PLUS, PLUS, 48, b"\0\x08\x40\0", 48, 4_196_352),
];

// The numbers of a row of good records, of the record in these bytes. All are 0 if it has a fault.
fn measured(bytes: &[u8; 60]) -> [u64; 6] {
    let Ok(r) = read_record(bytes) else {
        return [0; 6];
    };
    let g = geometry(&r);
    [
        u64::from(g.zone_size),
        g.disc_bits,
        u64::from(g.q),
        u64::from(g.min),
        u64::from(g.ids_per_zone),
        g.map_sector.saturating_mul(u64::from(g.sector)),
    ]
}

#[test]
fn good_records_have_their_measures(rt: HostRuntime) -> Result<(), Fail> {
    for (parts, want) in GOOD {
        let mut bytes = [0u8; 60];
        put(&mut bytes, parts);
        assert_eq!(rt; measured(&bytes), *want);
    }
    Ok(())
}

#[test]
fn bad_records_have_their_faults(rt: HostRuntime) -> Result<(), Fail> {
    for (record, plus, at, change, field, value) in BAD {
        let mut bytes = [0u8; 60];
        put_at(&mut bytes, 0, record);
        put_at(&mut bytes, 44, plus);
        put_at(&mut bytes, *at, change);
        let fault = RecordFault {
            field: *field,
            value: *value,
        };
        assert_eq!(rt; read_record(&bytes).err(), Some(fault));
    }
    Ok(())
}
