// What was asked of a disk, which only clauses read.
ghost use Rattle.std.specs.Prelude.{◌≡◌, ◌++◌, [], ◌∷◌, List};
ghost use Rattle.std.specs.Borrow.{ftrue};
ghost use Rattle.fc_device.specs.Asked.{Asked};

use std::marker::{Model, PhantomData};

/// What was asked of `attach` of a disk, in order. A disk that is made of nothing but memory or a file keeps it for its
/// clauses: it takes no memory, and its calls do nothing when they run.
#[derive(Drop)]
pub struct Asks {
    nothing: PhantomData<u8>,
    pub ghost list: { List Asked },
}

impl Model for Asks {
    ghost also_owns = { λ _. ftrue };
}

impl Asks {
    /// Nothing was asked.
    pub fn new() -> Asks
        ensures { result.list ≡ [] }
    {
        Asks {
            nothing: PhantomData,
        }
    }

    /// A name was asked for, as it is there or as a fresh image of so many bytes.
    pub fn note(&mut self, _name: &[u8], _blank: &Option<u64>)
        ensures { self.new.list ≡ self.old.list ++ (_name.now, _blank.now) ∷ [] }
    {}
}
