// A whole run over a disc on which every identifier has a run, while space is left.
ghost use Rattle.std.specs.Prelude.{◌<◌};

use super::{copied, texts};
use crate::images::{Part, put, put_at};
use fc_device::{ListSink, ListSource, PlainDisk};
use fc_shell::run;
use std::test::Fail;

// A disc with a boot block, 16 zones and identifiers of 11 bits.
const SIZE: usize = 8_134_656;

// What stands before the runs: the disc record, and the root, which is empty.
const PARTS: &[Part] = &[
    (3520, b"\x08\0\0\0\x0b\x08\0\0\0\x10 \0\0\x03\0\0\0 |"),
    (3583, b"\xea"),
    (6145, b"Nick"),
    (8154, b"\0\x03\0$\r"),
    (8176, b"$\r"),
    (8187, b"Nickh"),
];

// The zones: their first bytes, where runs of 12 bits begin, the identifier of the first, and how many pairs of them there are.
const ZONES: &[(&[u8], usize, u32, u32)] = &[
    (
        b"\x8a\0\x80\xff\x08\0\0\0\x0b\x08\0\0\0\x10 \0\0\x03\0\0\0 |",
        67,
        3,
        63,
    ),
    (b"\x1f\0\x80\0", 4, 129, 84),
    (b"\xe6\0\x80\0", 4, 297, 84),
    (b"\xe2\0\x80\0", 4, 465, 84),
    (b"#\0\x80\0", 4, 633, 84),
    (b"9\0\x80\0", 4, 801, 84),
    (b"\x1f\0\x80\0", 4, 969, 84),
    (b"\xe6\0\x80\0", 4, 1137, 84),
    (b"\xd4\0\x80\0\x02\0\0\0\0\x80", 10, 1305, 82),
    (b"\x1f\0\x80\0", 4, 1469, 84),
    (b"\xe6\0\x80\0", 4, 1637, 84),
    (b"\xe2\0\x80\0", 4, 1805, 84),
    (b"\xfb\x9c\x83\0", 4, 1973, 37),
    (b"\x18\x18\x80\0", 4, 0, 0),
    (b"\x18\x18\x80\0", 4, 0, 0),
    (b"\x18\x18\x80\0", 4, 0, 0),
];

// Two runs of 12 bits, of an identifier and of the next one.
fn two_runs(id: u32) -> [u8; 3]
    requires { id < 2047 }
{
    let one = 2048 + id;
    let two = one + 1;
    [
        (one % 256) as u8,
        (one / 256 + two % 16 * 16) as u8,
        (two / 16) as u8,
    ]
}

// Writes a copy of the map.
fn put_map(map: &mut Vec<u8>) {
    let mut zone: usize = 0;
    for (head, start, first, pairs) in ZONES {
        put_at(map, zone, head);
        let mut place = zone.saturating_add(*start);
        for pair in 0..*pairs {
            let id = first.saturating_add(pair.saturating_mul(2)) % 2047;
            put_at(map, place, &two_runs(id));
            place = place.saturating_add(3);
        }
        zone = zone.saturating_add(256);
    }
    put_at(map, 64, b"\x02\0\x80");
    // The last identifier has the last run of zone 12. The hole after it ends with the zone, as those of the zones after it.
    put_at(map, 3187, b"\xff\x0f");
    for end in [3327, 3583, 3839, 4095] {
        put_at(map, end, b"\x80");
    }
}

#[test]
fn identifiers_run_out(rt: HostRuntime) -> Result<(), Fail> {
    let alloc = rt.alloc();
    let mut image = vec![in alloc; 0; SIZE]?;
    put(&mut image, PARTS);
    let mut map = vec![in alloc; 0; 4096]?;
    put_map(&mut map);
    put_at(&mut image, 4_005_888, &map);
    put_at(&mut image, 4_009_984, &map);
    let mut disk = PlainDisk::new(
        String::from_str(alloc, "disc")?,
        copied(alloc, &image)?,
        SIZE,
    )?;
    let script = b"create $.A 00000000 00000000 1\ncdir $.A\nfree\n";
    let mut source = ListSource::new(copied(alloc, script)?, Vec::new(alloc), 1000);
    let mut sink = ListSink::new(alloc, Vec::new(alloc), 5000)?;
    let words = texts(alloc, &["disc"])?;
    let end = run(alloc, &words, &mut disk, &mut source, &mut sink);
    assert!(rt; end.status() == 1);
    assert!(rt;
        sink.bytes() == b"error 13 IdsFull\nerror 13 IdsFull\nfree 1833984 516096\nok\n".as_slice()
    );
    assert!(rt; disk.bytes() == image.as_slice());
    Ok(())
}
