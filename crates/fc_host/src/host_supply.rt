// A file of a host as bytes that are given in order.
ghost use Rattle.std.specs.Prelude.{◌≡◌, ◌<◌, ◌≤◌, [], false, length, option_map};
ghost use Rattle.std.proofs.Common.{arith};
ghost use Rattle.std.specs.Option.{ForSome};
ghost use Rattle.fc_host.specs.Asked.{taken_by};
ghost use Rattle.fc_host.specs.Files.{bytes_of};
ghost use Rattle.fc_host.specs.Supplies.{IsGivenOf};

use crate::asks::{HostAsks, HostCall};
use crate::fetch::take_all;
use crate::{Host, Supply};
use fc_device::Failed;

/// The bytes of a file of a host, from the first to the last. They are taken from it as they are asked for. If the host fails once, no
/// more are given.
#[derive(Drop)]
pub struct HostSupply<'a, H: Host> {
    pub host: &'a mut H,
    pub name: &'a [u8],
    pub total: u64,
    pub at: u64,
    pub failed: bool,
    pub given: HostAsks,
    ghost named: { 0 < length name.now },
    ghost short: { length name.now ≤ 64 },
    ghost inside: { at ≤ total },
    ghost given_is: { length (taken_by given.list) ≡ at },
    ghost told: { ForSome (H.files host.now) (λ files. IsGivenOf (taken_by given.list) total (bytes_of files name.now)) },
}

impl<'a, H: Host> HostSupply<'a, H> {
    /// Nothing is given yet. The file of this name has so many bytes.
    pub fn new(host: &'a mut H, name: &'a [u8], total: u64) -> HostSupply<'a, H>
        requires some { 0 < length name.now }
        requires most { length name.now ≤ 64 }
        requires size { ForSome (H.files host.old) (λ files. length (bytes_of files name.now) ≡ total) }
        ensures same_reference { result.host.ghost_name ≡ host.entry.ghost_name }
        ensures host { result.host.now ≡ host.old }
        ensures name { result.name.now ≡ name.now }
        ensures total { result.total ≡ total }
        ensures fresh { (result.at ≡ 0) × (result.failed ≡ false) × (result.given.list ≡ []) }
    {
        HostSupply {
            host,
            name,
            total,
            at: 0,
            failed: false,
            given: HostAsks::new(),
        }
    }
}

impl<'a, H: Host> Supply for HostSupply<'a, H> {
    ghost use Rattle.fc_host.specs.HostSupplies.{Goes, faults_fit, faults_of, known_of};

    ghost given = { λ s. taken_by s.given.list };

    ghost total = { λ s. s.total };

    ghost all = { λ s. option_map (λ files. bytes_of files s.name.now) (H.files s.host.now) };

    ghost faults = { λ s. faults_of s.failed (H.faults s.host.now) };

    ghost goes = { λ a b. (b.host.ghost_name ≡ a.host.ghost_name) × (b.name.now ≡ a.name.now) × (b.total ≡ a.total)
        × Goes H.Host a.name.now a.total (record { host = a.host.now; given = taken_by a.given.list; failed = a.failed }) (record { host = b.host.now; given = taken_by b.given.list; failed = b.failed }) };

    ghost within = { λ s. omega (arith, s.given_is, s.inside) };

    ghost known = { λ s. known_of (H.files s.host.now) (taken_by s.given.list) s.total s.name.now s.told };

    ghost faults_fit = { λ s. faults_fit s.failed (H.faults s.host.now) (H.faults_fit s.host.now) };

    fn total(&self) -> u64 {
        self.total
    }

    fn fill(&mut self, into: &mut [u8]) -> Result<(), Failed> {
        if into.is_empty() {
            return Ok(());
        }
        if self.failed {
            return Err(Failed);
        }
        if let Err(Failed) = take_all(self.host, self.name, self.at, into) {
            self.failed = true;
            return Err(Failed);
        }
        self.given.note(self.name, &HostCall::Take(self.at), into);
        self.at += into.len() as u64;
        Ok(())
    }
}
