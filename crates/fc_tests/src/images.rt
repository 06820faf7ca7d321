// What images are put together from: bytes at places, records whose bytes were worked out by other programs, and disks whose calls
// never fail.
use fc_device::Failing;
use std::alloc::Global;

// A place, and the bytes from there on.
pub type Part = (usize, &'static [u8]);

// The records of fresh discs of formats E, F and E+, without the zeros that follow.
pub const RECORD_E: &[u8] = b"\x0a\x05\x02\x02\x0f\x07\x01\0\0\x01\x20\x05\x03\x02\0\0\0\x80\x0c";

pub const RECORD_F: &[u8] = b"\x0a\x0a\x02\x04\x0f\x06\x01\0\0\x04\x40\x06\x09\x02\0\0\0\0\x19";

pub const RECORD_E_PLUS: &[u8] =
    b"\x0a\x05\x02\x02\x0f\x07\x01\0\0\x01\x20\x05\x01\x03\0\0\0\x80\x0c";

// What a record with big directories has from byte 44 on.
pub const PLUS: &[u8] = b"\x01\0\0\0\0\x08";

// Bytes put at a place, as far as there is room.
pub fn put_at(b: &mut [u8], at: usize, bytes: &[u8]) {
    for (place, byte) in b.iter_mut().skip(at).zip(bytes) {
        *place = *byte;
    }
}

// Parts put at their places.
pub fn put(b: &mut [u8], parts: &[Part]) {
    for (at, bytes) in parts {
        put_at(b, *at, bytes);
    }
}

// Calls of which none fails.
pub fn never(alloc: Global) -> Failing {
    Failing {
        reads: Vec::new(alloc),
        writes: Vec::new(alloc),
        syncs: Vec::new(alloc),
    }
}
