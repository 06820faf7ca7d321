// Whole runs whose lines copy files between the disc and a host in memory.
use super::{FRESH, copied, hello, texts};
use fc_device::{ListSink, ListSource, PlainDisk};
use fc_host::ListHost;
use fc_shell::run_with;
use std::alloc::Global;
use std::test::Fail;

// A run over the image with `Hello`, with a host that has no files and space for two of ten bytes: status, text, and what `b.txt`
// holds then.
fn hosted(
    alloc: Global,
    words: &[&str],
    script: &[u8],
    failing: &[u64],
) -> Result<(u8, Vec<u8>, Vec<u8>), Fail> {
    let image = hello(alloc, &[])?;
    let mut disk = PlainDisk::new(String::from_str(alloc, "disc")?, image, FRESH)?;
    let mut source = ListSource::new(copied(alloc, script)?, Vec::new(alloc), 1000);
    let mut sink = ListSink::new(alloc, Vec::new(alloc), 5000)?;
    let numbers = failing.to_vec(alloc)?;
    let mut host = ListHost::new(alloc, Vec::new(alloc), 2, 10, numbers)?;
    let words = texts(alloc, words)?;
    let end = run_with(alloc, &words, &mut disk, &mut source, &mut sink, &mut host);
    Ok((
        end.status(),
        copied(alloc, sink.bytes())?,
        copied(alloc, host.bytes(b"b.txt"))?,
    ))
}

// A script, the calls of the host that fail, and the status, the text and the bytes of `b.txt` that it has.
type HostedRun = (
    &'static [u8],
    &'static [u64],
    u8,
    &'static [u8],
    &'static [u8],
);

const HOSTED: &[HostedRun] = &[
    (
        b"get $.Hello b.txt\nget $.Hello b.txt\nget $.None c.txt\nget $ c.txt\n",
        &[],
        1,
        b"ok\nerror 20 HostExists\nerror 3 NotFound\nerror 5 IsDirectory\n",
        b"Hello",
    ),
    // a refusal of the path comes before that of the file
    (
        b"get $.hello b.txt\nget $.None b.txt\n",
        &[],
        1,
        b"ok\nerror 3 NotFound\n",
        b"Hello",
    ),
    // names that are none
    (
        b"get $.Hello .txt\nget $.Hello a/b\nget $.Hello\nput a/b $.A 00000000 00000000\n",
        &[],
        1,
        b"error 1 BadCommand\nerror 1 BadCommand\nerror 1 BadCommand\nerror 1 BadCommand\n",
        b"",
    ),
    // a file that is put; one that isn't there; paths that are refused before the host is asked
    (
        b"get $.Hello b.txt\nput b.txt $.A 00000000 00000000\nload $.A\nput c.txt $.C 00000000 00000000\nput c.txt $.None.C 00000000 00000000\nput c.txt $ 00000000 00000000\n",
        &[],
        1,
        b"ok\nok\n48656c6c6f\nok\nerror 18 NoHostFile\nerror 3 NotFound\nerror 5 IsDirectory\n",
        b"Hello",
    ),
    // its length isn't told; its bytes aren't given
    (
        b"get $.Hello b.txt\nput b.txt $.A 00000000 00000000\nfree\n",
        &[3],
        11,
        b"ok\n",
        b"Hello",
    ),
    (
        b"get $.Hello b.txt\nput b.txt $.A 00000000 00000000\nfree\n",
        &[4],
        11,
        b"ok\n",
        b"Hello",
    ),
    // the file can't be made; the bytes can't be added; nor can it be taken back
    (
        b"load $.Hello\nget $.Hello b.txt\nfree\n",
        &[1],
        11,
        b"48656c6c6f\nok\n",
        b"",
    ),
    (b"get $.Hello b.txt\n", &[2], 11, b"", b""),
    (b"get $.Hello b.txt\n", &[2, 3], 11, b"", b""),
    // no space for the bytes, and none for a third file
    (
        b"save $.Long 00000000 00000000 4142434445464748494a4b\nget $.Long b.txt\nfree\n",
        &[],
        11,
        b"ok\n",
        b"",
    ),
    (
        b"get $.Hello a\nget $.Hello b.txt\nget $.Hello c\nfree\n",
        &[],
        11,
        b"ok\nok\n",
        b"Hello",
    ),
];

#[test]
fn files_of_a_host(rt: HostRuntime) -> Result<(), Fail> {
    let alloc = rt.alloc();
    for (script, failing, wanted, text, bytes) in HOSTED {
        let (status, written, left) = hosted(alloc, &["disc"], script, failing)?;
        assert!(rt; status == *wanted);
        assert!(rt; written.as_slice() == *text);
        assert!(rt; left.as_slice() == *bytes);
    }
    // A demo moves no files, and an image that may not be changed is copied from.
    let (status, _, _) = hosted(alloc, &["--demo", "1", "--read-only", "disc"], b"", &[1])?;
    assert!(rt; status == 1);
    let (status, written, left) = hosted(
        alloc,
        &["--read-only", "disc"],
        b"get $.Hello b.txt\n",
        &[],
    )?;
    assert!(rt; status == 0);
    assert!(rt; written.as_slice() == b"ok\n".as_slice());
    assert!(rt; left.as_slice() == b"Hello".as_slice());
    Ok(())
}
