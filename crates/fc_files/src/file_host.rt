// The files of the current folder as those of a host. It makes nothing known of what they hold.
ghost use Rattle.std.specs.Prelude.{◌≡◌, ◌<◌, ◌≤◌, ◌^◌, ◌++◌, [], ◌∷◌, None};
ghost use Rattle.fc_device.specs.Numbers.{next_number};

use crate::folder::Folder;
use fc_device::Failed;
use fc_host::{Host, HostAsks, HostCall};
use std::os::unix::fs::FileExt;
use std::rt::Files;

/// The files of the current folder.
///
/// A file that is there is opened for reading alone, and only if it is a plain file and not the image: anything else of that name is
/// a fault, found before it is opened. Bytes are read up to the length that a file had when `size` was last asked for it, or when
/// its first bytes were taken; if it has become shorter, that is a fault. A file is made only if nothing has the name, not even a
/// link. Bytes are added to the file that was made last, and it is the only one that is removed: for one that was made before it
/// these calls fail. If its name leads to another file by then, that one stays, and the call fails.
#[derive(Drop)]
pub struct FileHost<R: Files + Drop>
where
    R::File: FileExt,
{
    folder: Folder<R>,
    asks: HostAsks,
    faults: u64,
    ghost few: { faults < 2 ^ 64 },
}

impl<R: Files + Drop> FileHost<R>
where
    R::File: FileExt,
{
    ghost use Rattle.fc_host.specs.declared.asks.HostCall.TheVariants as calls;

    /// Nothing was asked yet, and no call has failed. `image` is the name of the image. Files are opened with the rights of `rt`.
    pub fn new(rt: R, image: &str) -> FileHost<R>
        ensures asks { result.asks.list ≡ [] }
        ensures fresh { result.faults ≡ 0 }
    {
        FileHost {
            folder: Folder::new(rt, image),
            asks: HostAsks::new(),
            faults: 0,
        }
    }

    // A call failed: that is counted and noted.
    fn fail(&mut self, name: &[u8], from: &[u8]) -> Failed
        ensures asked { self.new.asks.list ≡ self.old.asks.list ++ (name.now, calls.Failed, from.now) ∷ [] }
        ensures counted { self.new.faults ≡ next_number self.old.faults }
        ensures later { self.old.faults ≤ self.new.faults }
    {
        self.faults = self.faults.saturating_add(1);
        self.asks.note(name, &HostCall::Failed, from);
        Failed
    }
}

impl<R: Files + Drop> Host for FileHost<R>
where
    R::File: FileExt,
{
    ghost files = { λ s. None };

    ghost asked = { λ s. s.asks.list };

    ghost faults = { λ s. s.faults };

    fn size(&mut self, name: &[u8]) -> Result<Option<u64>, Failed> {
        let Ok(size) = self.folder.size(name) else {
            return Err(self.fail(name, &[]));
        };
        self.asks.note(name, &HostCall::Size(size), &[]);
        Ok(size)
    }

    fn take(&mut self, name: &[u8], at: u64, into: &mut [u8]) -> Result<usize, Failed> {
        let Ok(count) = self.folder.take(name, at, into) else {
            return Err(self.fail(name, &[]));
        };
        self.asks.note(name, &HostCall::Take(at), &into[..count]);
        Ok(count)
    }

    fn make(&mut self, name: &[u8]) -> Result<bool, Failed> {
        let Ok(made) = self.folder.make(name) else {
            return Err(self.fail(name, &[]));
        };
        self.asks.note(name, &HostCall::Make(made), &[]);
        Ok(made)
    }

    fn append(&mut self, name: &[u8], from: &[u8]) -> Result<(), Failed> {
        if self.folder.append(name, from).is_err() {
            return Err(self.fail(name, from));
        }
        self.asks.note(name, &HostCall::Append, from);
        Ok(())
    }

    fn remove(&mut self, name: &[u8]) -> Result<(), Failed> {
        if self.folder.remove(name).is_err() {
            return Err(self.fail(name, &[]));
        }
        self.asks.note(name, &HostCall::Remove, &[]);
        Ok(())
    }

    ghost faults_fit = { λ s. s.few };
}
