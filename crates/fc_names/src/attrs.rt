// The attributes of objects.
ghost use Rattle.std.specs.Prelude.{⊤, ◌≡◌, [], ◌∷◌, codes};
ghost use Rattle.fc_names.specs.Names.{is_locked, is_directory};

use bitflags::{Flag, Flags, bitflag_items};

/// The attributes of an object, a number of 32 bits. Bits that have no name here are kept.
#[derive(Clone, Copy, Debug, PartialEq, Eq)]
pub struct Attrs(u32);

bitflag_items! {
    impl Attrs: u32 {
        const OWNER_READ = 1;
        const OWNER_WRITE = 2;
        const LOCKED = 4;
        const DIRECTORY = 8;
    }
}

impl Flags for Attrs {
    type Bits = u32;

    ghost exact = { ⊤ };

    ghost table = { (codes "OWNER_READ", 1) ∷ (codes "OWNER_WRITE", 2) ∷ (codes "LOCKED", 4) ∷ (codes "DIRECTORY", 8) ∷ [] };

    ghost set_of = { λ attrs. attrs.0 };

    fn flags<'a>() -> &'a [Flag<Attrs>] {
        Attrs::FLAGS
    }

    fn bits(&self) -> u32 {
        self.0
    }

    fn from_bits_retain(bits: u32) -> Attrs {
        Attrs(bits)
    }
}

impl Attrs {
    /// The attributes of that number.
    pub fn new(bits: u32) -> Attrs
        ensures { result.0 ≡ bits }
    {
        Attrs(bits)
    }

    /// Whether the object is locked.
    pub fn is_locked(self) -> bool
        ensures { result ≡ is_locked self.0 }
    {
        self.contains(Attrs::LOCKED)
    }

    /// Whether the object is a directory.
    pub fn is_directory(self) -> bool
        ensures { result ≡ is_directory self.0 }
    {
        self.contains(Attrs::DIRECTORY)
    }
}
