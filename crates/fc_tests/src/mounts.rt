// Images by hand, good ones and one for each fault that mounting itself decides. The checks were worked out by another
// program.
use crate::images::{PLUS, Part, RECORD_E, RECORD_E_PLUS, RECORD_F, never, put};
use fc_device::{Disk, Failing, MemoryDisk};
use fc_image::ImageFault;
use fc_volume::{MountError, Volume};
use std::alloc::Global;
use std::test::Fail;

// An answer as the rows have it: its name, and the numbers that it has.
type Told = (&'static str, u64, u64);

const E: &[Part] = &[
    (0, b"\x0f\x18\x82\xff"),
    (4, RECORD_E),
    (64, b"\x02\0\0\x80"),
    (863, b"\x80"),
    (1024, b"\x0f\x18\x82\xff"),
    (1028, RECORD_E),
    (1088, b"\x02\0\0\x80"),
    (1887, b"\x80"),
    (2048, b"\0Nick\0"),
    (4058, b"\x03\x02\0$\r"),
    (4080, b"$\r"),
    (4090, b"\0Nick\x6a"),
];

const E_PLUS: &[Part] = &[
    (0, b"\x9d\x18\x82\xff"),
    (4, RECORD_E_PLUS),
    (48, PLUS),
    (64, b"\x02\x80\x03\x80"),
    (863, b"\x80"),
    (1024, b"\x9d\x18\x82\xff"),
    (1028, RECORD_E_PLUS),
    (1072, PLUS),
    (1088, b"\x02\x80\x03\x80"),
    (1887, b"\x80"),
    (2048, b"\0\0\0\0SBPr\x01\0\0\0\0\x08\0\0\0\0\0\0\0\0\0\0"),
    (2072, b"\x01\x03\0\0$\r\0\0"),
    (4088, b"oven\0\0\0\x7b"),
];

const L: &[Part] = &[
    (0, b"\x07"),
    (252, b"\0\x0a\0\x11"),
    (256, b"\xf9\x09"),
    (510, b"\x03\x05"),
    (512, b"\0Hugo\0"),
    (1740, b"$\r"),
    (1750, b"\x02\0\0$\r"),
    (1786, b"\0Hugo\0"),
];

// An F's boot block. Both places of its map are 0, so that each zone has its right check, and not their total.
const F: &[Part] = &[(0xdc0, RECORD_F), (0xdff, b"\x9e")];

// The bytes of an image, what is changed in them, its length, and the answer.
type Row = (&'static [Part], &'static [Part], usize, Told);

const ROWS: &[Row] = &[
    (E, &[], 819_200, ("mounted", 0, 0)),
    (E, &[(0, b"\0")], 819_200, ("mounted", 0, 0)),
    (E_PLUS, &[], 819_200, ("mounted", 0, 0)),
    (L, &[], 655_360, ("mounted", 0, 0)),
    (&[], &[], 819_200, ("NoKind", 0, 0)),
    (E, &[], 818_944, ("Short", 819_200, 818_944)),
    (F, &[], 1_638_400, ("Copies", 4, 4)),
    (F, &[(0xc_6800, b"\x01")], 1_638_400, ("Copies", 0, 4)),
    // Copy 1 has an identifier of 1 in its root, so that copy 2 gives the kind.
    (
        E,
        &[(0, b"\x0e"), (16, b"\x03\x01")],
        819_200,
        ("Bad", 12, 0),
    ),
    (
        E,
        &[(0, b"\x0f"), (9, b"\x08"), (16, b"\x03\x01")],
        819_200,
        ("Differs", 5, 0),
    ),
    (
        E_PLUS,
        &[(0, b"\x9c"), (52, b"\x01\x08")],
        819_200,
        ("Bad", 48, 0),
    ),
    (
        E_PLUS,
        &[(0, b"\x82"), (16, b"\x01\x01"), (52, b"\x01\x08")],
        819_200,
        ("Bad", 12, 0),
    ),
    // Its last run has no end.
    (
        E,
        &[(0, b"\x8e"), (863, b"\0"), (1024, b"\x8e"), (1887, b"\0")],
        819_200,
        ("Zone", 0, 544),
    ),
    (L, &[(0, b"\x01"), (255, b"\x0b")], 655_360, ("Hole", 0, 0)),
    (L, &[(510, b"\x04\x06")], 655_360, ("Hole", 1, 0)),
    // The map lies in the root's identifier 3.
    (
        E,
        &[
            (0, b"\x3f"),
            (16, b"\x03\x03"),
            (64, b"\x03"),
            (1024, b"\x3f"),
            (1040, b"\x03\x03"),
            (1088, b"\x03"),
        ],
        819_200,
        ("MapPlace", 0, 0),
    ),
];

// A fault as the rows have it.
fn told_of(fault: &ImageFault) -> Told {
    match fault {
        ImageFault::NoKind => ("NoKind", 0, 0),
        ImageFault::Short { need, have } => ("Short", *need, *have),
        ImageFault::Copies { c1, c2 } => ("Copies", u64::from(*c1), u64::from(*c2)),
        ImageFault::Differs { offset } => ("Differs", u64::from(*offset), 0),
        ImageFault::Bad { offset } => ("Bad", u64::from(*offset), 0),
        ImageFault::Zone { zone, bit } => ("Zone", u64::from(*zone), u64::from(*bit)),
        ImageFault::Hole { index } => ("Hole", u64::from(*index), 0),
        ImageFault::Directory { .. } => ("Directory", 0, 0),
        ImageFault::Place { .. } => ("Place", 0, 0),
        ImageFault::Overlap { .. } => ("Overlap", 0, 0),
        ImageFault::MapPlace { sector } => ("MapPlace", *sector, 0),
    }
}

// The answer, as the rows have it, of mounting a disk of these bytes, of which some read calls fail.
fn mounted(alloc: Global, row: &Row, failing: Failing) -> Result<Told, Fail> {
    let (parts, changes, size, _) = row;
    let mut bytes = vec![in alloc; 0; *size]?;
    put(&mut bytes, parts);
    put(&mut bytes, changes);
    let name = String::from_str(alloc, "disc")?;
    let mut disk = MemoryDisk::new(alloc, name, bytes, failing, 1, 0)?;
    if !disk.attach("disc", None)? {
        return Err("attached".into());
    }
    match Volume::mount(alloc, &mut disk, true) {
        Ok(volume) if volume.fit && volume.read_only => Ok(("mounted", 0, 0)),
        Ok(_) => Err("fit and read-only".into()),
        Err(MountError::Image(fault)) => Ok(told_of(&fault)),
        Err(MountError::NoMemory) => Err("memory".into()),
        Err(MountError::DiskFault) => Ok(("DiskFault", 0, 0)),
    }
}

#[test]
fn images_are_mounted_or_told_of(rt: HostRuntime) -> Result<(), Fail> {
    let alloc = rt.alloc();
    for (i, row) in ROWS.iter().enumerate() {
        let told = mounted(alloc, row, never(alloc))?;
        assert!(rt; told == row.3, "row {i}");
    }
    Ok(())
}

#[test]
fn a_read_that_fails_is_a_disk_fault(rt: HostRuntime) -> Result<(), Fail> {
    let alloc = rt.alloc();
    // Two reads for a boot block, four for the map's first place, none of the map, two of the root.
    for call in 1..10 {
        let mut failing = never(alloc);
        failing.reads.push(call)?;
        let want = if call < 9 { "DiskFault" } else { "mounted" };
        let row: &Row = &(E, &[], 819_200, (want, 0, 0));
        let told = mounted(alloc, row, failing)?;
        assert!(rt; told == row.3, "call {call}");
    }
    Ok(())
}
