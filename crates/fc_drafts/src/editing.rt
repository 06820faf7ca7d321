// Edits of entries and heads, each alone.
ghost use Rattle.std.specs.Prelude.{◌≡◌, ◌<◌, ◌↔◌, Some, length, slice_get, IsErrOf, IsFalse, OnErr, OnOk};
ghost use Rattle.std.specs.Option.{option_map};
ghost use Rattle.fc_dirs.specs.Entries.{has_name, without_entry};
ghost use Rattle.fc_dirs.specs.Directory.{entries_of};
ghost use Rattle.fc_drafts.specs.Draft.{CanBeCalled, CanHold, CanAddress, CanName, IsFullFor, IsFullForRenamed, directory_in, with_changed, with_head, with_less, with_name, with_new, with_renamed};

use crate::Draft;
use fc_device::NoMemory;
use fc_dirs::{Entry, InsertError};
use fc_names::Name;

impl Draft {
    // Sets the field of the parent, and grows the sequence byte by one.
    pub(crate) fn head(&mut self, parent: u32)
        requires { CanAddress (directory_in self.old) parent }
        ensures { directory_in self.new ≡ with_head parent (directory_in self.old) }
    {
        match self {
            Draft::Small(dir) => {
                dir.set_parent(parent);
                dir.touch();
            }
            Draft::Big(dir) => {
                dir.set_parent(parent);
                dir.touch();
            }
        }
    }

    // Sets the name in the head. Only a small head always holds it.
    pub(crate) fn set_name(&mut self, name: &Name) -> Result<(), NoMemory>
        requires { CanBeCalled (directory_in self.old) name.now }
        ensures ok { OnOk result (directory_in self.new ≡ with_name name.now (directory_in self.old)) }
        ensures err { OnErr result (directory_in self.new ≡ directory_in self.old) }
    {
        match self {
            Draft::Small(dir) => {
                dir.set_name(name);
                Ok(())
            }
            Draft::Big(dir) => dir.set_name(name),
        }
    }

    // Puts a new entry in its place.
    pub(crate) fn insert(&mut self, e: Entry) -> Result<(), InsertError>
        requires named { CanName (directory_in self.old) e.name }
        requires held { CanHold (directory_in self.old) e }
        requires absent { IsFalse (has_name (entries_of (directory_in self.old)) e.name) }
        ensures ok { OnOk result (directory_in self.new ≡ with_new e (directory_in self.old)) }
        ensures err { OnErr result (directory_in self.new ≡ directory_in self.old) }
        ensures full { IsErrOf result InsertError.DirFull ↔ IsFullFor e (directory_in self.old) }
    {
        match self {
            Draft::Small(dir) => dir.insert(e),
            Draft::Big(dir) => dir.insert(e),
        }
    }

    // Takes the entry at a place out.
    pub(crate) fn remove(&mut self, at: usize)
        requires { at < length (entries_of (directory_in self.old)) }
        ensures { directory_in self.new ≡ with_less at (directory_in self.old) }
    {
        match self {
            Draft::Small(dir) => dir.remove(at),
            Draft::Big(dir) => dir.remove(at),
        }
    }

    // Replaces the entry at a place by one of the same name.
    pub(crate) fn change(&mut self, at: usize, e: Entry)
        requires present { at < length (entries_of (directory_in self.old)) }
        requires same { option_map (λ d. d.name) (slice_get (entries_of (directory_in self.old)) at) ≡ Some e.name }
        requires held { CanHold (directory_in self.old) e }
        ensures { directory_in self.new ≡ with_changed at e (directory_in self.old) }
    {
        match self {
            Draft::Small(dir) => dir.change(at, e),
            Draft::Big(dir) => dir.change(at, e),
        }
    }

    // Takes the entry at a place out, and puts another where a new one stands.
    pub(crate) fn move_entry(&mut self, at: usize, e: Entry) -> Result<(), InsertError>
        requires present { at < length (entries_of (directory_in self.old)) }
        requires named { CanName (directory_in self.old) e.name }
        requires held { CanHold (directory_in self.old) e }
        requires absent { IsFalse (has_name (without_entry at (entries_of (directory_in self.old))) e.name) }
        ensures ok { OnOk result (directory_in self.new ≡ with_renamed at e (directory_in self.old)) }
        ensures err { OnErr result (directory_in self.new ≡ directory_in self.old) }
        ensures full { IsErrOf result InsertError.DirFull ↔ IsFullForRenamed at e (directory_in self.old) }
    {
        match self {
            Draft::Small(dir) => {
                dir.rename(at, e);
                Ok(())
            }
            Draft::Big(dir) => dir.rename(at, e),
        }
    }
}
