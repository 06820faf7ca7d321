// Streams as source and sink. Nothing is claimed of what they give and take.
ghost use Rattle.std.specs.Prelude.{◌≡◌, ◌<◌, ◌^◌, None};
ghost use Rattle.std.specs.Io.{ReadsAtMost, WritesAtMost};

use fc_device::{Failed, Sink, Source};
use std::io::{self, ErrorKind, Read, Write};

// Reads, and again after an interruption.
fn read_some<R: Read>(reader: &mut R, into: &mut [u8]) -> io::Result<usize>
    ensures { ReadsAtMost result into.new }
{
    for _ in 0..u64::MAX {
        match reader.read(into) {
            Err(error) if error.kind() == ErrorKind::Interrupted => {}
            answer => return answer,
        }
    }
    Err(io::Error::from(ErrorKind::TimedOut))
}

// Writes, and again after an interruption.
fn write_some<W: Write>(writer: &mut W, from: &[u8]) -> io::Result<usize>
    ensures { WritesAtMost result from.now }
{
    for _ in 0..u64::MAX {
        match writer.write(from) {
            Err(error) if error.kind() == ErrorKind::Interrupted => {}
            answer => return answer,
        }
    }
    Err(io::Error::from(ErrorKind::TimedOut))
}

/// A source over a reader. A read that the system interrupts is tried again; another that fails is a fault.
#[derive(Drop)]
pub struct StdSource<R: Read + Drop> {
    reader: R,
    faults: u64,
    ghost few: { faults < 2 ^ 64 },
}

impl<R: Read + Drop> StdSource<R> {
    /// No call has failed yet.
    pub fn new(reader: R) -> StdSource<R>
        ensures { result.faults ≡ 0 }
    {
        StdSource { reader, faults: 0 }
    }
}

impl<R: Read + Drop> Source for StdSource<R> {
    ghost left = { λ s. None };

    ghost faults = { λ s. s.faults };

    fn read(&mut self, into: &mut [u8]) -> Result<usize, Failed> {
        match read_some(&mut self.reader, into) {
            Ok(count) => Ok(count),
            Err(_) => {
                self.faults = self.faults.saturating_add(1);
                Err(Failed)
            }
        }
    }

    ghost faults_fit = { λ s. s.few };
}

/// A sink over a writer. A write that the system interrupts is tried again; another that fails, or takes no byte, is a fault.
#[derive(Drop)]
pub struct StdSink<W: Write + Drop> {
    writer: W,
    faults: u64,
    ghost few: { faults < 2 ^ 64 },
}

impl<W: Write + Drop> StdSink<W> {
    /// No call has failed yet.
    pub fn new(writer: W) -> StdSink<W>
        ensures { result.faults ≡ 0 }
    {
        StdSink { writer, faults: 0 }
    }
}

impl<W: Write + Drop> Sink for StdSink<W> {
    ghost taken = { λ s. None };

    ghost faults = { λ s. s.faults };

    fn write(&mut self, from: &[u8]) -> Result<usize, Failed> {
        if from.is_empty() {
            return Ok(0);
        }
        match write_some(&mut self.writer, from) {
            Ok(count) if count > 0 => Ok(count),
            _ => {
                self.faults = self.faults.saturating_add(1);
                Err(Failed)
            }
        }
    }

    ghost faults_fit = { λ s. s.few };
}
