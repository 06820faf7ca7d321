// Runs of the program over disks in memory.
use fc_device::{ListSink, ListSource, PlainDisk};
use fc_shell::run;
use std::alloc::Global;
use std::test::Fail;

pub fn copied(alloc: Global, bytes: &[u8]) -> Result<Vec<u8>, Fail> {
    let mut copy = Vec::new(alloc);
    copy.extend_from_slice(bytes)?;
    Ok(copy)
}

// A disk named `disc` of these bytes, with room for a fresh image.
pub fn disk_of(alloc: Global, image: &[u8], fresh: usize) -> Result<PlainDisk, Fail> {
    let name = String::from_str(alloc, "disc")?;
    Ok(PlainDisk::new(name, copied(alloc, image)?, fresh)?)
}

// Room for what the longest script says
const ROOM: usize = 400_000;

// What a run with these words says.
pub fn by_run(
    alloc: Global,
    words: &[&str],
    disk: &mut PlainDisk,
    script: &str,
) -> Result<String, Fail> {
    let mut source = ListSource::new(copied(alloc, script.as_bytes())?, Vec::new(alloc), 65_536);
    let mut sink = ListSink::new(alloc, Vec::new(alloc), ROOM)?;
    let mut list = Vec::new(alloc);
    for word in words {
        list.push(String::from_str(alloc, word)?)?;
    }
    let _ = run(alloc, &list, disk, &mut source, &mut sink);
    let text = std::str::from_utf8(sink.bytes()).unwrap_or("?");
    Ok(String::from_str(alloc, text)?)
}
