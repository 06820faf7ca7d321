// Drafts of directories, small and big.
ghost use Rattle.std.specs.Prelude.{◌≡◌, Some, length, slice_get, IfOk, IsFalse, IsTrue, MatchOption};
ghost use Rattle.fc_names.specs.Names.{is_same_name};
ghost use Rattle.fc_dirs.specs.declared.Entry.{Entry};
ghost use Rattle.fc_dirs.specs.Entries.{has_name};
ghost use Rattle.fc_dirs.specs.Directory.{Directory, entries_of, parent_of};
ghost use Rattle.fc_image.specs.effects.Steady.{AreWritten, new_directory};
ghost use Rattle.fc_drafts.specs.Draft.{CanBeCalled, CanHold, CanAddress, IsSayable, directory_in, size_of};

use fc_bigdir::BigDir;
use fc_device::NoMemory;
use fc_dirs::{Entry, SmallForm};
use fc_names::{Name, NameForm, fold_eq};
use fc_smalldir::SmallDir;
use std::alloc::Global;

/// A directory as a command leaves it, of the disc's form.
#[derive(Drop)]
pub enum Draft {
    Small(SmallDir),
    Big(BigDir),
}

impl Draft {
    /// A copy of a small directory.
    pub fn copy_small(alloc: Global, dir: &SmallDir) -> Result<Draft, NoMemory>
        ensures { IfOk result (λ draft. directory_in draft ≡ Directory.Small dir.now) }
    {
        Ok(Draft::Small(dir.copied(alloc)?))
    }

    /// A copy of a big directory.
    pub fn copy_big(alloc: Global, dir: &BigDir) -> Result<Draft, NoMemory>
        ensures { IfOk result (λ draft. directory_in draft ≡ Directory.Big dir.now) }
    {
        Ok(Draft::Big(dir.copied(alloc)?))
    }

    /// A new directory of that name, with no entry. `parent` is the disc address of the directory that holds it, on discs
    /// with small directories below 2^24.
    pub fn empty(alloc: Global, form: NameForm, parent: u32, name: &Name) -> Result<Draft, NoMemory>
        requires parent { CanAddress (new_directory form parent name.now) parent }
        requires name { CanBeCalled (new_directory form parent name.now) name.now }
        ensures { IfOk result (λ draft. directory_in draft ≡ new_directory form parent name.now) }
    {
        match form {
            NameForm::Seven => Ok(Draft::Small(SmallDir::empty(
                alloc,
                SmallForm::Bytes1280,
                parent,
                name,
            ))),
            NameForm::Ten => Ok(Draft::Small(SmallDir::empty(
                alloc,
                SmallForm::Bytes2048,
                parent,
                name,
            ))),
            NameForm::Long => Ok(Draft::Big(BigDir::empty(alloc, parent, name)?)),
        }
    }

    /// The entries in stored order.
    pub fn entries(&self) -> &[Entry]
        ensures same { result.now ≡ entries_of (directory_in self.now) }
        ensures sayable { IsSayable (directory_in self.now) }
    {
        match self {
            Draft::Small(dir) => dir.entries(),
            Draft::Big(dir) => dir.entries(),
        }
    }

    /// The disc address of the directory that holds this one, as its field says.
    pub fn parent(&self) -> u32
        ensures { result ≡ parent_of (directory_in self.now) }
    {
        match self {
            Draft::Small(dir) => dir.parent(),
            Draft::Big(dir) => dir.parent(),
        }
    }

    /// The number of bytes of the directory.
    pub fn size(&self) -> usize
        ensures { result ≡ size_of (directory_in self.now) }
    {
        match self {
            Draft::Small(dir) => dir.form().size(),
            Draft::Big(dir) => dir.size(),
        }
    }

    /// Fills the buffer, which is as long as the directory, with its bytes.
    pub fn write(&self, b: &mut [u8])
        requires { length b.old ≡ size_of (directory_in self.now) }
        ensures { AreWritten b.new (directory_in self.now) }
    {
        match self {
            Draft::Small(dir) => dir.write(b),
            Draft::Big(dir) => dir.write(b),
        }
    }

    /// The place of the entry of that name, by folding.
    pub fn place_of_name(&self, name: &Name) -> Option<usize>
        ensures place { MatchOption result (IsFalse (has_name (entries_of (directory_in self.now)) name.now)) (λ at. (e : Entry) × (slice_get (entries_of (directory_in self.now)) at ≡ Some e) × IsTrue (is_same_name e.name name.now) × CanHold (directory_in self.now) e) }
    {
        self.entries().iter().position(|e| fold_eq(name, &e.name))
    }
}
