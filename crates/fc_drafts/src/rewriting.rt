// The ways in which a command rewrites a directory. Each sets the parent to the address of the holder, and grows the sequence
// byte by one. `entries` comes first, since its clause says what holds of every directory.
ghost use Rattle.std.specs.Prelude.{◌≡◌, ◌<◌, ◌↔◌, Some, length, slice_get, IsErrOf, IsFalse, IsTrue, OnErr, OnOk};
ghost use Rattle.std.specs.Option.{option_map};
ghost use Rattle.fc_dirs.specs.declared.Entry.{Entry};
ghost use Rattle.fc_dirs.specs.Entries.{has_name, without_entry};
ghost use Rattle.fc_dirs.specs.Directory.{entries_of};
ghost use Rattle.fc_image.specs.effects.Short.{Gain, is_full_with};
ghost use Rattle.fc_drafts.specs.Draft.{CanBeCalled, CanHold, CanAddress, CanName, directory_in};
ghost use Rattle.fc_drafts.specs.Gains.{GetsName, GetsNameFor};
ghost use Rattle.fc_drafts.specs.Rewriting.{HasAmended, HasEntered, HasLeft, HasMoved, HasNewHolder, HasRenamed, HasReplaced, IsAt};

use crate::Draft;
use fc_device::NoMemory;
use fc_dirs::{Entry, InsertError};
use fc_names::Name;

impl Draft {
    /// A new entry comes, in its place by name. Its name may be written in the directory and folds to none that is there, and
    /// the directory can hold its numbers. After an error the draft is as before.
    ///
    /// `DirFull` comes exactly if fc_image::effects' `is_full_with` says so of the directory with the name.
    pub fn enter(&mut self, parent: u32, e: Entry) -> Result<(), InsertError>
        requires named { CanName (directory_in self.old) e.name }
        requires held { CanHold (directory_in self.old) e }
        requires absent { IsFalse (has_name (entries_of (directory_in self.old)) e.name) }
        requires parent { CanAddress (directory_in self.old) parent }
        ensures ok { OnOk result (HasEntered parent e (directory_in self.old) (directory_in self.new)) }
        ensures err { OnErr result (directory_in self.new ≡ directory_in self.old) }
        ensures full { (gain : Gain) → GetsName (directory_in self.old) e.name gain → IsErrOf result InsertError.DirFull ↔ IsTrue (is_full_with (directory_in self.old) gain) }
    {
        self.entries();
        self.insert(e)?;
        self.head(parent);
        Ok(())
    }

    /// The entry at a place is replaced by one of the same name.
    pub fn replace(&mut self, parent: u32, at: usize, e: Entry)
        requires present { at < length (entries_of (directory_in self.old)) }
        requires same { option_map (λ d. d.name) (slice_get (entries_of (directory_in self.old)) at) ≡ Some e.name }
        requires held { CanHold (directory_in self.old) e }
        requires parent { CanAddress (directory_in self.old) parent }
        ensures { HasReplaced parent at e (directory_in self.old) (directory_in self.new) }
    {
        self.entries();
        self.change(at, e);
        self.head(parent);
    }

    /// The entry at a place goes. In a big directory its name stays in the heap.
    pub fn leave(&mut self, parent: u32, at: usize)
        requires present { at < length (entries_of (directory_in self.old)) }
        requires parent { CanAddress (directory_in self.old) parent }
        ensures { HasLeft parent at (directory_in self.old) (directory_in self.new) }
    {
        self.entries();
        self.remove(at);
        self.head(parent);
    }

    /// The entry at a place becomes another within the directory, in the place of a new one by its name, which may be written
    /// in the directory and folds to no other that is there. After an error the draft is as before.
    ///
    /// `DirFull` comes exactly if the name is spelled otherwise than before and fc_image::effects' `is_full_with` says so.
    pub fn rename(&mut self, parent: u32, at: usize, e: Entry) -> Result<(), InsertError>
        requires present { at < length (entries_of (directory_in self.old)) }
        requires named { CanName (directory_in self.old) e.name }
        requires held { CanHold (directory_in self.old) e }
        requires absent { IsFalse (has_name (without_entry at (entries_of (directory_in self.old))) e.name) }
        requires parent { CanAddress (directory_in self.old) parent }
        ensures ok { OnOk result (HasRenamed parent at e (directory_in self.old) (directory_in self.new)) }
        ensures err { OnErr result (directory_in self.new ≡ directory_in self.old) }
        ensures kept { (was : Entry) → IsAt (entries_of (directory_in self.old)) at was → was.name ≡ e.name → IsErrOf result InsertError.DirFull → ⊥ }
        ensures full { (was : Entry) (gain : Gain) → IsAt (entries_of (directory_in self.old)) at was → (was.name ≡ e.name → ⊥) → GetsNameFor (directory_in self.old) was.name e.name gain → IsErrOf result InsertError.DirFull ↔ IsTrue (is_full_with (directory_in self.old) gain) }
    {
        self.entries();
        self.move_entry(at, e)?;
        self.head(parent);
        Ok(())
    }

    /// The directory itself gets another name, or another holder, or both. A big one keeps the name in its head if it has no
    /// space for the new one. After an error the draft is as before.
    pub fn rename_head(&mut self, parent: u32, name: &Name) -> Result<(), NoMemory>
        requires name { CanBeCalled (directory_in self.old) name.now }
        requires parent { CanAddress (directory_in self.old) parent }
        ensures ok { OnOk result (HasMoved parent name.now (directory_in self.old) (directory_in self.new)) }
        ensures err { OnErr result (directory_in self.new ≡ directory_in self.old) }
    {
        self.entries();
        self.set_name(name)?;
        self.head(parent);
        Ok(())
    }

    /// The directory that holds this one has got another address, or one of its entries has been amended.
    pub fn set_holder(&mut self, parent: u32)
        requires { CanAddress (directory_in self.old) parent }
        ensures { HasNewHolder parent (directory_in self.old) (directory_in self.new) }
    {
        self.entries();
        self.head(parent);
    }

    /// The entry at a place is replaced by one of the same name, as that of a grown directory, before the directory is
    /// rewritten by one of the calls above: the head stays.
    pub fn amend(&mut self, at: usize, e: Entry)
        requires present { at < length (entries_of (directory_in self.old)) }
        requires same { option_map (λ d. d.name) (slice_get (entries_of (directory_in self.old)) at) ≡ Some e.name }
        requires held { CanHold (directory_in self.old) e }
        ensures { HasAmended at e (directory_in self.old) (directory_in self.new) }
    {
        self.entries();
        self.change(at, e);
    }
}
