// The entries that commands make.
ghost use Rattle.std.specs.Prelude.{◌≡◌, ◌<◌, IfOk};
ghost use Rattle.fc_image.specs.effects.Short.{new_dir_size};
ghost use Rattle.fc_drafts.specs.Entries.{directory_entry, file_entry, marked_entry, regrown, renamed_entry, saved_entry, set_entry};

use fc_device::NoMemory;
use fc_dirs::Entry;
use fc_names::{Name, NameForm};

/// The entry of a new file, which may be read and written.
pub fn file_entry(name: Name, load: u32, exec: u32, len: u32, address: u32) -> Entry
    ensures { result ≡ file_entry name load exec len address }
{
    Entry {
        name,
        load,
        exec,
        len,
        address,
        attrs: 3,
        last: 0,
    }
}

/// The bytes of a new directory.
pub fn new_dir_size(form: NameForm) -> u32
    ensures { result ≡ new_dir_size form }
{
    match form {
        NameForm::Seven => 1280,
        NameForm::Ten | NameForm::Long => 2048,
    }
}

/// The entry of a new directory.
pub fn directory_entry(form: NameForm, name: Name, address: u32) -> Entry
    ensures { result ≡ directory_entry form name address }
{
    Entry {
        name,
        load: 0,
        exec: 0,
        len: new_dir_size(form),
        address,
        attrs: 8,
        last: 0,
    }
}

/// The entry of a file that is saved over: it keeps its name, its attributes and its last byte. The address is below 2^24 on
/// discs with small directories.
pub fn saved_entry(
    e: &Entry,
    load: u32,
    exec: u32,
    len: u32,
    address: u32,
) -> Result<Entry, NoMemory>
    ensures { IfOk result (λ saved. saved ≡ saved_entry e.now load exec len address) }
{
    let copy = e.copied()?;
    Ok(Entry {
        load,
        exec,
        len,
        address,
        ..copy
    })
}

/// An entry with other words, and with bits 0 to 2 of its attributes as given.
pub fn set_entry(e: &Entry, load: u32, exec: u32, access: u32) -> Result<Entry, NoMemory>
    requires { access < 8 }
    ensures { IfOk result (λ set. set ≡ set_entry e.now load exec access) }
{
    let copy = e.copied()?;
    let attrs = copy.attrs / 8 * 8 + access;
    Ok(Entry {
        load,
        exec,
        attrs,
        ..copy
    })
}

/// An entry with other attributes, but for bit 3.
pub fn marked_entry(e: &Entry, attrs: u32) -> Result<Entry, NoMemory>
    ensures { IfOk result (λ marked. marked ≡ marked_entry e.now attrs) }
{
    let copy = e.copied()?;
    let attrs = attrs / 16 * 16 + 8 * (copy.attrs / 8 % 2) + attrs % 8;
    Ok(Entry { attrs, ..copy })
}

/// An entry with another name, which keeps all else but its address, and that too unless the object is copied.
pub fn renamed_entry(e: &Entry, name: Name, address: u32) -> Entry
    ensures { result ≡ renamed_entry e.now name address }
{
    Entry {
        name,
        load: e.load,
        exec: e.exec,
        len: e.len,
        address,
        attrs: e.attrs,
        last: e.last,
    }
}

/// The entry of a directory that has grown, with its address and its length.
pub fn regrown_entry(e: &Entry, address: u32, len: u32) -> Result<Entry, NoMemory>
    ensures { IfOk result (λ grown. grown ≡ regrown e.now address len) }
{
    let copy = e.copied()?;
    Ok(Entry {
        address,
        len,
        ..copy
    })
}
