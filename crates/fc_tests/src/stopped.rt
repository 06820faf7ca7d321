// What a crash leaves of a disk in memory, on a worked case: the program has no such disk, and the crashes in the runs here rest
// on it.
use crate::images::never;
use fc_device::{Disk, Extent, Failing, MemoryDisk};
use std::alloc::Global;
use std::test::Fail;

// Whether each sector of 256 bytes has this value throughout.
fn has_sectors(bytes: &[u8], values: &[u8]) -> bool {
    bytes.len() / 256 == values.len()
        && bytes
            .iter()
            .enumerate()
            .all(|(i, b)| values.get(i / 256) == Some(b))
}

// Three sectors of 0, of which sectors 0 and 1 were written before a sync, and sector 0 twice after it.
fn written(alloc: Global) -> Result<MemoryDisk, Fail> {
    let name = String::from_str(alloc, "disc")?;
    let bytes = vec![in alloc; 0; 768]?;
    let mut disk = MemoryDisk::new(alloc, name, bytes, never(alloc), 6, 0)?;
    if disk.attach("disc", None)? && disk.sectors() == 3 {
        disk.write(0, &[1; 256])?;
        disk.write(1, &[2; 256])?;
        disk.sync()?;
        disk.write(0, &[3; 256])?;
        disk.write(0, &[4; 256])?;
    }
    Ok(disk)
}

// Three sectors of 0, of which the first two were written in a row, which fails at the second if `failing` has it.
fn written_row(alloc: Global, failing: Failing) -> Result<MemoryDisk, Fail> {
    let name = String::from_str(alloc, "disc")?;
    let bytes = vec![in alloc; 0; 768]?;
    let mut disk = MemoryDisk::new(alloc, name, bytes, failing, 6, 0)?;
    if disk.attach("disc", None)? && disk.sectors() == 3 {
        let mut row = [1; 512];
        row[256..].fill(2);
        let extent = Extent {
            first: 0,
            sectors: 2,
        };
        let _ = disk.write_row(extent, &row);
    }
    Ok(disk)
}

#[test]
fn stops_leave_any_sectors_of_a_row(rt: HostRuntime) -> Result<(), Fail> {
    let alloc = rt.alloc();
    let disk = written_row(alloc, never(alloc))?;
    let left = [
        ([].as_slice(), [0, 0, 0].as_slice()),
        ([true, false].as_slice(), [1, 0, 0].as_slice()),
        ([false, true].as_slice(), [0, 2, 0].as_slice()),
        ([true, true].as_slice(), [1, 2, 0].as_slice()),
    ];
    for (kept, values) in left {
        let image = disk.stopped(alloc, 99, kept)?;
        assert!(rt; has_sectors(&image, values));
    }
    let second = Failing {
        reads: Vec::new(alloc),
        writes: vec![in alloc; 2]?,
        syncs: Vec::new(alloc),
    };
    let disk = written_row(alloc, second)?;
    assert!(rt; has_sectors(disk.bytes(), &[1, 0, 0]));
    Ok(())
}

#[test]
fn stops_leave_what_is_kept(rt: HostRuntime) -> Result<(), Fail> {
    let alloc = rt.alloc();
    let disk = written(alloc)?;
    let left = [
        (0, [].as_slice(), [0, 0, 0].as_slice()),
        (3, [true, false].as_slice(), [1, 0, 0].as_slice()),
        (3, [false, true].as_slice(), [0, 2, 0].as_slice()),
        (3, [].as_slice(), [0, 0, 0].as_slice()),
        (4, [].as_slice(), [1, 2, 0].as_slice()),
        (6, [true].as_slice(), [3, 2, 0].as_slice()),
        (6, [false, true].as_slice(), [4, 2, 0].as_slice()),
        (6, [true, true].as_slice(), [4, 2, 0].as_slice()),
        (99, [true, false].as_slice(), [3, 2, 0].as_slice()),
    ];
    for (calls, kept, values) in left {
        let image = disk.stopped(alloc, calls, kept)?;
        assert!(rt; has_sectors(&image, values), "after {calls}");
    }
    Ok(())
}
