// The adapters over real things.
ghost use Rattle.std.specs.Prelude.{◌≡◌, ◌<◌, ◌≤◌, length, IsTrue};
ghost use Rattle.fc_device.specs.Calls.{SameForm};

use crate::file_disk::FileDisk;
use crate::file_host::FileHost;
use crate::streams::{StdSink, StdSource};
use fc_device::{Disk, Extent, Failed, Sink, Source};
use fc_host::Host;
use std::fs;
use std::io::{self, ErrorKind, Read, Write};
use std::os::unix::fs::symlink;
use std::test::Fail;

// A reader and a writer whose every second call is interrupted.
#[derive(Drop)]
struct Interrupted<T: Drop> {
    inner: T,
    calls: u64,
}

impl<T: Read + Drop> Read for Interrupted<T> {
    fn read(&mut self, into: &mut [u8]) -> io::Result<usize> {
        self.calls = self.calls.saturating_add(1);
        if self.calls % 2 == 1 {
            return Err(io::Error::from(ErrorKind::Interrupted));
        }
        self.inner.read(into)
    }
}

impl<T: Write + Drop> Write for Interrupted<T> {
    fn write(&mut self, from: &[u8]) -> io::Result<usize> {
        self.calls = self.calls.saturating_add(1);
        if self.calls % 2 == 1 {
            return Err(io::Error::from(ErrorKind::Interrupted));
        }
        self.inner.write(from)
    }

    fn flush(&mut self) -> io::Result<()> {
        Ok(())
    }
}

#[test]
fn streams_give_and_take(rt: HostRuntime) -> Result<(), Fail> {
    let alloc = rt.alloc();
    let mut source = StdSource::new(b"abc".as_slice());
    let mut buffer = [0u8; 2];
    let first = source.read(&mut buffer)?;
    assert!(rt; first == 2);
    let second = source.read(&mut buffer)?;
    assert!(rt; second == 1);
    let end = source.read(&mut buffer)?;
    assert!(rt; end == 0);
    let mut sink = StdSink::new(Vec::new(alloc));
    let count = sink.write(b"abc")?;
    assert!(rt; count == 3);
    Ok(())
}

#[test]
fn streams_go_on_after_an_interruption(rt: HostRuntime) -> Result<(), Fail> {
    let mut source = StdSource::new(Interrupted {
        inner: b"abc".as_slice(),
        calls: 0,
    });
    let mut buffer = [0u8; 2];
    let first = source.read(&mut buffer)?;
    assert_eq!(rt; &buffer[..first], b"ab".as_slice());
    let second = source.read(&mut buffer)?;
    assert_eq!(rt; &buffer[..second], b"c".as_slice());
    let mut sink = StdSink::new(Interrupted {
        inner: Vec::new(rt.alloc()),
        calls: 0,
    });
    let count = sink.write(b"abc")?;
    assert!(rt; count == 3);
    Ok(())
}

#[test]
fn a_name_is_given_or_not(rt: HostRuntime) -> Result<(), Fail> {
    const MADE: &str = "named-by-a-test.adf";
    let _ = fs::remove_file(&rt, MADE);
    let mut disk = FileDisk::new(rt.clone()?);
    let absent = disk.attach("no-such-image.adf", None)?;
    assert!(rt; !absent);
    let made = disk.attach(MADE, Some(1000))?;
    assert!(rt; made);
    let again = disk.attach(MADE, Some(1000))?;
    assert!(rt; !again);
    let sectors = disk.sectors();
    assert!(rt; sectors == 3);
    let through = disk.attach("named-by-a-test.adf/image.adf", None)?;
    assert!(rt; !through);
    let nowhere = disk.attach("no-such-folder/image.adf", Some(1000));
    assert!(rt; nowhere.is_err());
    let folder = disk.attach(".", None);
    assert!(rt; folder.is_err());
    Ok(())
}

// Writes bytes of one value to a sector, if there is such a one.
fn put<D: Disk>(disk: &mut D, n: u64, byte: u8) -> Result<bool, Failed>
    requires attached { IsTrue (D.attached disk.old) }
    requires size { D.sector_size disk.old ≡ 512 }
    ensures form { SameForm D.Disk disk.old disk.new }
{
    if n >= disk.sectors() {
        return Ok(false);
    }
    disk.write(n, &[byte; 512])?;
    Ok(true)
}

// Writes two sectors in a row, each with bytes of one value, if there are such.
fn put_two<D: Disk>(disk: &mut D, first: u64, bytes: [u8; 2]) -> Result<bool, Failed>
    requires attached { IsTrue (D.attached disk.old) }
    requires size { D.sector_size disk.old ≡ 512 }
    ensures form { SameForm D.Disk disk.old disk.new }
{
    let mut row = [bytes[0]; 1024];
    row[512..].fill(bytes[1]);
    let sectors = disk.sectors();
    if first >= sectors || sectors - first < 2 {
        return Ok(false);
    }
    let extent = Extent { first, sectors: 2 };
    disk.write_row(extent, &row)?;
    Ok(true)
}

// Whether a sector has bytes of one value.
fn has<D: Disk>(disk: &mut D, n: u64, byte: u8) -> Result<bool, Failed>
    requires attached { IsTrue (D.attached disk.old) }
    requires size { D.sector_size disk.old ≡ 512 }
    ensures form { SameForm D.Disk disk.old disk.new }
{
    let mut sector = [0u8; 512];
    if n >= disk.sectors() {
        return Ok(false);
    }
    disk.read(n, &mut sector)?;
    Ok(sector == [byte; 512])
}

// Whether two sectors, read at once, have bytes of these values.
fn has_two<D: Disk>(disk: &mut D, first: u64, bytes: [u8; 2]) -> Result<bool, Failed>
    requires attached { IsTrue (D.attached disk.old) }
    requires size { D.sector_size disk.old ≡ 512 }
    ensures form { SameForm D.Disk disk.old disk.new }
{
    let mut row = [0u8; 1024];
    let sectors = disk.sectors();
    if first >= sectors || sectors - first < 2 {
        return Ok(false);
    }
    let extent = Extent { first, sectors: 2 };
    disk.read_row(extent, &mut row)?;
    let mut wanted = [bytes[0]; 1024];
    wanted[512..].fill(bytes[1]);
    Ok(row == wanted)
}

#[test]
fn writes_are_read_back(rt: HostRuntime) -> Result<(), Fail> {
    const MADE: &str = "written-by-a-test.adf";
    let _ = fs::remove_file(&rt, MADE);
    let mut disk = FileDisk::new(rt.clone()?);
    let made = disk.attach(MADE, Some(5000))?;
    assert!(rt; made);
    disk.shape(9);
    let all = put(&mut disk, 8, 73)?
        && put(&mut disk, 1, 66)?
        && put(&mut disk, 5, 1)?
        && put(&mut disk, 0, 65)?
        && put(&mut disk, 5, 70)?;
    assert!(rt; all);
    disk.sync()?;
    drop(disk);
    let mut again = FileDisk::new(rt.clone()?);
    let given = again.attach(MADE, None)?;
    assert!(rt; given);
    again.shape(9);
    let right = has(&mut again, 5, 70)?;
    assert!(rt; right);
    // The first write opens the file for writing, and reads go on by the same file.
    let right = put(&mut again, 3, 90)? && has(&mut again, 3, 90)?;
    assert!(rt; right);
    let right = put_two(&mut again, 6, [80, 81])? && !put_two(&mut again, 8, [1, 1])?;
    assert!(rt; right);
    let right = has(&mut again, 8, 73)? && has_two(&mut again, 7, [81, 73])?;
    assert!(rt; right);
    let right = has_two(&mut again, 3, [90, 0])? && has_two(&mut again, 0, [65, 66])?;
    assert!(rt; right);
    again.sync()?;
    let bytes = fs::read(&rt, MADE)?;
    assert!(rt; bytes.len() == 5000);
    let firsts = [65u8, 66, 0, 90, 0, 70, 80, 81, 73, 0];
    let right = bytes
        .chunks(512)
        .zip(&firsts)
        .all(|(sector, first)| sector.iter().all(|byte| byte == first));
    assert!(rt; right);
    fs::remove_file(&rt, MADE)?;
    Ok(())
}

#[test]
fn an_unfinished_file_goes(rt: HostRuntime) -> Result<(), Fail> {
    const MADE: &str = "unfinished-by-a-test.adf";
    const MOVED: &str = "moved-by-a-test.adf";
    let _ = fs::remove_file(&rt, MADE);
    let mut disk = FileDisk::new(rt.clone()?);
    let made = disk.attach(MADE, Some(1024))?;
    assert!(rt; made);
    disk.write(1, &[1u8; 256])?;
    drop(disk);
    let gone = !fs::exists(&rt, MADE)?;
    assert!(rt; gone);
    // What has the name by then is another's.
    let mut other = FileDisk::new(rt.clone()?);
    let made = other.attach(MADE, Some(1024))?;
    assert!(rt; made);
    fs::rename(&rt, MADE, MOVED)?;
    fs::write(&rt, MADE, "another's")?;
    drop(other);
    let kept = fs::read_to_string(&rt, MADE)?;
    assert_eq!(rt; kept.as_str(), "another's");
    fs::remove_file(&rt, MADE)?;
    fs::remove_file(&rt, MOVED)?;
    Ok(())
}

#[test]
fn another_file_is_never_written(rt: HostRuntime) -> Result<(), Fail> {
    const IMAGE: &str = "read-by-a-test.adf";
    const MOVED: &str = "put-aside-by-a-test.adf";
    fs::write(&rt, IMAGE, [7u8; 512])?;
    let mut disk = FileDisk::new(rt.clone()?);
    let given = disk.attach(IMAGE, None)?;
    assert!(rt; given);
    let sectors = disk.sectors();
    assert!(rt; sectors == 2);
    fs::rename(&rt, IMAGE, MOVED)?;
    fs::write(&rt, IMAGE, [8u8; 512])?;
    let refused = disk.write(1, &[9u8; 256]).is_err();
    assert!(rt; refused);
    let mut sector = [0u8; 256];
    disk.read(1, &mut sector)?;
    assert!(rt; sector == [7; 256]);
    let (new, old) = (fs::read(&rt, IMAGE)?, fs::read(&rt, MOVED)?);
    assert!(rt; new.iter().all(|byte| *byte == 8));
    assert!(rt; old.iter().all(|byte| *byte == 7));
    fs::remove_file(&rt, IMAGE)?;
    fs::remove_file(&rt, MOVED)?;
    Ok(())
}

// Makes a file of these bytes if nothing has the name. Answers whether it made one.
fn made<H: Host>(host: &mut H, name: &[u8], bytes: &[u8]) -> Result<bool, Failed>
    requires some { 0 < length name.now }
    requires most { length name.now ≤ 64 }
{
    if !host.make(name)? {
        return Ok(false);
    }
    host.append(name, bytes)?;
    Ok(true)
}

// Makes an empty file and removes it. Answers whether it made one.
fn unmade<H: Host>(host: &mut H, name: &[u8]) -> Result<bool, Failed>
    requires some { 0 < length name.now }
    requires most { length name.now ≤ 64 }
{
    if !host.make(name)? {
        return Ok(false);
    }
    host.remove(name)?;
    Ok(true)
}

// The first bytes of a file, and how many they are: none if there is no such file, or if it is empty.
fn first<H: Host>(host: &mut H, name: &[u8], into: &mut [u8]) -> Result<usize, Failed>
    requires some { 0 < length name.now }
    requires most { length name.now ≤ 64 }
    requires room { 0 < length into.old }
{
    match host.size(name)? {
        Some(n) if n > 0 => host.take(name, 0, into),
        _ => Ok(0),
    }
}

#[test]
fn host_files_are_made_and_read(rt: HostRuntime) -> Result<(), Fail> {
    const MADE: &str = "made-by-a-test.bin";
    let name = MADE.as_bytes();
    let _ = fs::remove_file(&rt, MADE);
    let mut host = FileHost::new(rt.clone()?, "no-such-image.adf");
    assert!(rt; host.size(name)?.is_none());
    assert!(rt; made(&mut host, name, b"abcde")?);
    assert!(rt; !made(&mut host, name, b"another's")?);
    assert!(rt; host.size(name)? == Some(5));
    let mut two = [0; 2];
    assert!(rt; first(&mut host, name, &mut two)? == 2 && two == [97, 98]);
    // A file that has become shorter is a fault, and one that has become longer is read as it was.
    fs::write(&rt, MADE, "abcdefgh")?;
    let mut ten = [0; 10];
    assert!(rt; host.take(name, 3, &mut ten)? == 2);
    fs::write(&rt, MADE, "a")?;
    assert!(rt; host.take(name, 3, &mut ten).is_err());
    fs::remove_file(&rt, MADE)?;
    assert!(rt; host.size(name)?.is_none());
    Ok(())
}

#[test]
fn own_host_files_are_removed(rt: HostRuntime) -> Result<(), Fail> {
    const MADE: &str = "removed-by-a-test.bin";
    let name = MADE.as_bytes();
    let _ = fs::remove_file(&rt, MADE);
    let mut host = FileHost::new(rt.clone()?, "no-such-image.adf");
    assert!(rt; unmade(&mut host, name)?);
    assert!(rt; !fs::exists(&rt, MADE)?);
    fs::write(&rt, MADE, "another's")?;
    assert!(rt; !unmade(&mut host, name)?);
    let kept = fs::read_to_string(&rt, MADE)?;
    assert_eq!(rt; kept.as_str(), "another's");
    fs::remove_file(&rt, MADE)?;
    Ok(())
}

#[test]
fn what_is_no_plain_file_is_a_fault(rt: HostRuntime) -> Result<(), Fail> {
    const IMAGE: &str = "image-of-a-test.adf";
    const FOLDER: &str = "folder-of-a-test";
    const LINK: &str = "link-of-a-test";
    fs::write(&rt, IMAGE, "an image")?;
    fs::create_dir(&rt, FOLDER)?;
    let mut host = FileHost::new(rt.clone()?, IMAGE);
    assert!(rt; host.size(FOLDER.as_bytes()).is_err() && host.make(FOLDER.as_bytes()).is_err());
    assert!(rt; host.size(IMAGE.as_bytes()).is_err() && host.make(IMAGE.as_bytes()).is_err());
    assert!(rt;
        host.size(b"folder-of-a-test/a").is_err() && host.make(b"folder-of-a-test/a").is_err()
    );
    // A link to the image, to a device and to nothing.
    for target in [IMAGE, "/dev/zero", "no-such-file.bin"] {
        symlink(&rt, target, LINK)?;
        assert!(rt; host.make(LINK.as_bytes()).is_err());
        assert!(rt; host.size(LINK.as_bytes()).is_err() || target == "no-such-file.bin");
        fs::remove_file(&rt, LINK)?;
    }
    fs::remove_dir(&rt, FOLDER)?;
    fs::remove_file(&rt, IMAGE)?;
    Ok(())
}
