// A disk over a real file. It makes nothing known of its content, nor of what a crash of the machine leaves.
ghost use Rattle.std.specs.Prelude.{[], ◌≡◌, ◌<◌, ◌^◌, ◌/◌, ◌||◌, ◌==◌, true, false, None, IsTrue, refl};
ghost use Rattle.fc_device.specs.Faults.{HasCause};
ghost use Rattle.fc_device.specs.Untold.{not_some, not_true};
ghost use Rattle.fc_device.specs.Image.{is_sector_size};
ghost use Rattle.std.specs.Option.{option_map};
ghost use Rattle.fc_files.specs.Named.{WasAsked};

use crate::opened::Edge;
use fc_device::{Asks, Disk, Extent, Failed};
use std::os::unix::fs::FileExt;
use std::rt::Files;

/// A disk over a file of the machine.
///
/// A file that is there is opened for reading alone. The first write opens it for writing, and fails if its name leads to another
/// file by then. A file that the disk made goes with the disk if no sync has succeeded since. A sync that failed is never made
/// good: the system may have given up what was written, and each later one fails too.
#[derive(Drop)]
pub struct FileDisk<R: Files + Drop>
where
    R::File: FileExt,
{
    edge: Edge<R>,
    asks: Asks,
    attached: bool,
    length: u64,
    size: u64,
    // Whether something was written, and no sync has succeeded since.
    pending: bool,
    faults: u64,
    ghost known: { IsTrue ((size == 256) || (size == 512) || (size == 1024)) },
    ghost positive: { 0 < size },
    ghost fits: { length < 2 ^ 64 },
    ghost few: { faults < 2 ^ 64 },
    // What is open has a name that was asked for.
    ghost named: { ∥ WasAsked (option_map (λ o. o.name.bytes) edge.opened) asks.list ∥₁ },
}

impl<R: Files + Drop> FileDisk<R>
where
    R::File: FileExt,
{
    /// No file is open yet, none was asked for, and no call has failed. Files are opened with the rights of `rt`.
    pub fn new(rt: R) -> FileDisk<R>
        ensures asks { result.asks.list ≡ [] }
        ensures fresh { (result.attached ≡ false) × (result.pending ≡ false) × (result.faults ≡ 0) }
    {
        FileDisk {
            edge: Edge::new(rt),
            asks: Asks::new(),
            attached: false,
            length: 0,
            size: 256,
            pending: false,
            faults: 0,
        }
    }

    // Writes from a byte of the image on. Whatever comes of it, it is pending.
    fn write_from(&mut self, at: u64, from: &[u8]) -> Result<(), Failed>
        ensures pending { self.new.pending ≡ true }
        ensures asks { self.new.asks ≡ self.old.asks }
        ensures named { option_map (λ o. o.name.bytes) self.new.edge.opened ≡ option_map (λ o. o.name.bytes) self.old.edge.opened }
        ensures attached { self.new.attached ≡ self.old.attached }
        ensures length { self.new.length ≡ self.old.length }
        ensures size { self.new.size ≡ self.old.size }
        ensures cause { HasCause self.old.faults self.new.faults result }
    {
        self.pending = true;
        if self.edge.write(at, from).is_err() {
            self.faults = self.faults.saturating_add(1);
            return Err(Failed);
        }
        Ok(())
    }
}

impl<R: Files + Drop> Disk for FileDisk<R>
where
    R::File: FileExt,
{
    ghost attached = { λ s. s.attached };

    ghost gives = { λ s. None };

    ghost asked = { λ s. s.asks.list };

    ghost bytes = { λ s. None };

    ghost left_since = { λ s t image. ⊥ };

    ghost tells_stops = { λ s. false };

    ghost moment = { λ s. 0 };

    ghost pending = { λ s. s.pending };

    ghost sectors = { λ s. s.length / s.size };

    ghost sector_size = { λ s. s.size };

    ghost image_length = { λ s. s.length };

    ghost read_calls = { λ s. 0 };

    ghost faults = { λ s. s.faults };

    fn attach(&mut self, name: &str, blank: Option<u64>) -> Result<bool, Failed> {
        self.asks.note(name.as_bytes(), &blank);
        match self.edge.open(name, blank) {
            Ok(None) => Ok(false),
            Ok(Some(length)) => {
                self.attached = true;
                self.length = length;
                self.size = 256;
                self.pending = false;
                Ok(true)
            }
            Err(_) => {
                self.faults = self.faults.saturating_add(1);
                Err(Failed)
            }
        }
    }

    fn shape(&mut self, log2: u8) {
        self.size = match log2 {
            8 => 256,
            9 => 512,
            _ => 1024,
        };
    }

    fn sectors(&self) -> u64 {
        self.length / self.size
    }

    fn length(&self) -> u64 {
        self.length
    }

    fn read(&mut self, n: u64, into: &mut [u8]) -> Result<(), Failed> {
        if self.edge.read(n * self.size, into).is_err() {
            self.faults = self.faults.saturating_add(1);
            return Err(Failed);
        }
        Ok(())
    }

    fn read_row(&mut self, row: Extent, into: &mut [u8]) -> Result<(), Failed> {
        if self.edge.read(row.first * self.size, into).is_err() {
            self.faults = self.faults.saturating_add(1);
            return Err(Failed);
        }
        Ok(())
    }

    fn write(&mut self, n: u64, from: &[u8]) -> Result<(), Failed> {
        self.write_from(n * self.size, from)
    }

    fn write_row(&mut self, row: Extent, from: &[u8]) -> Result<(), Failed> {
        self.write_from(row.first * self.size, from)
    }

    fn sync(&mut self) -> Result<(), Failed> {
        let synced = self.edge.sync();
        self.pending = synced.is_err();
        if synced.is_err() {
            self.faults = self.faults.saturating_add(1);
            return Err(Failed);
        }
        Ok(())
    }

    ghost sector_sizes = { λ s. is_sector_size s.size s.known };

    ghost whole_sectors = { λ s. refl };

    ghost length_fits = { λ s. s.fits };

    ghost faults_fit = { λ s. s.few };

    ghost told_length = { λ s image told. absurd (not_some image told) };

    ghost earlier = { λ s t u image le left. left };

    ghost leaves_what_is_read = { λ s tells image told. absurd (not_true tells) };

    ghost settled = { λ s quiet image told other left. absurd left };
}
