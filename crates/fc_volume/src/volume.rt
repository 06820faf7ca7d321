// Volumes and their parts.
ghost use Rattle.std.specs.Prelude.{◌≡◌};

use fc_alloc::Owners;
use fc_holdings::Holdings;
use fc_space::Space;
use fc_tree::Tree;
use std::alloc::Global;
use std::marker::Model;

/// The filing system over one disk: what it holds of its disc in memory, whether it may be changed, and whether it is fit. A volume
/// doesn't hold the disk; each call is given it.
#[derive(Drop)]
pub struct Volume {
    pub holdings: Holdings,
    pub read_only: bool,
    pub fit: bool,
}

impl Model for Volume {
    ghost use Rattle.fc_volume.specs.Volume as volume;

    ghost Value = { volume.Volume };

    ghost view = { λ v. record { space = v.holdings.places; copies = v.holdings.copies; tree = v.holdings.tree; owners = v.holdings.owners; read_only = v.read_only; fit = v.fit } };
}

impl Volume {
    /// The objects.
    pub fn tree(&self) -> &Tree
        ensures { result.now ≡ self.now.tree }
    {
        &self.holdings.tree
    }

    /// The map.
    pub fn space(&self) -> &Space
        ensures { result.now ≡ self.now.space }
    {
        self.holdings.places.space()
    }

    /// The owners of identifiers.
    pub fn owners(&self) -> &Owners
        ensures { result.now ≡ self.now.owners }
    {
        &self.holdings.owners
    }

    /// Before a file's place is looked for: makes the index of the map again, which a change drops, if a place was looked for since. If
    /// memory is short, places are found as before.
    pub fn renew_index(&mut self, alloc: Global)
        ensures { self.new ≡ self.old }
    {
        self.holdings.places.renew_index(alloc);
    }
}
