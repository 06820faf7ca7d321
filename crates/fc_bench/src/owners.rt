// Owners added, asked for, changed and removed, by nodes and identifiers that rise.
ghost use Rattle.std.specs.Prelude.{◌≡◌, []};

use crate::timing::print_rate;
use fc_alloc::{Owner, Owners};
use std::alloc::Global;
use std::io;
use std::io::Print;
use std::rt::Clock;
use std::time::Instant;

const OWNERS: u32 = 200_000;

fn owner(node: u64, id: u32) -> Owner
    ensures { result.node ≡ node }
{
    Owner {
        id,
        dir: 0,
        node,
        file: true,
        low: 0,
        first: 0,
        sectors: 8,
    }
}

// Adds owners until there are enough or memory is short, and says how many were added.
fn add_all(owners: &mut Owners) -> u32
    requires { owners.old ≡ [] }
{
    for n in 0..OWNERS {
        if owners.add(owner(u64::from(n), n)).is_err() {
            return n;
        }
    }
    OWNERS
}

// How many identifiers are owned.
fn count_owned(owners: &Owners) -> u32 {
    let mut count = 0u32;
    for id in 0..OWNERS {
        if owners.owned(id) {
            count = count.saturating_add(1);
        }
    }
    count
}

// Gives each owner the next identifier but one.
fn change_all(owners: &mut Owners) -> u32 {
    for n in 0..OWNERS {
        let Some(o) = owners.list().get(n as usize).copied() else {
            return n;
        };
        owners.change(owner(o.node, o.id.saturating_add(2)));
    }
    OWNERS
}

fn remove_all(owners: &mut Owners) {
    for n in 0..OWNERS {
        owners.remove(u64::from(n));
    }
}

pub fn run<R: Print + Clock>(rt: &R, alloc: Global) -> io::Result<()> {
    let mut owners = Owners::new(alloc);
    let start = Instant::now(rt)?;
    let added = add_all(&mut owners);
    print_rate(rt, "owners added", u64::from(added), "owners", start)?;
    let start = Instant::now(rt)?;
    let owned = count_owned(&owners);
    print_rate(
        rt,
        "identifiers asked for",
        u64::from(owned),
        "identifiers",
        start,
    )?;
    let start = Instant::now(rt)?;
    let changed = change_all(&mut owners);
    print_rate(rt, "owners changed", u64::from(changed), "owners", start)?;
    let start = Instant::now(rt)?;
    remove_all(&mut owners);
    print_rate(rt, "owners removed", u64::from(changed), "owners", start)
}
