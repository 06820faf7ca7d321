// What a job moves: the directories that it rewrites, the objects that leave their identifiers, and how far the others then reach.
ghost use Rattle.std.specs.Prelude.{◌≡◌, ◌++◌, Contains, IfOk, OnOk, length};
ghost use Rattle.std.specs.Option.{option_to_list};
ghost use Rattle.fc_alloc.specs.declared.owner.Owner.{Owner};
ghost use Rattle.fc_newmap.specs.NewMap.{IsOfRecord};
ghost use Rattle.fc_tree.specs.Nodes.{nodes_of};
ghost use Rattle.fc_safe.specs.FirstNeeds.{leaving_of, longer_of, node_of, out_need, own_need};
ghost use Rattle.fc_safe.specs.Moving.{AreMoved, IsMovingFor, IsPlacedOwner, paired_needs};

use crate::changed::changed_nodes;
use crate::lists::push;
use crate::needs::Need;
use crate::staying::{Longer, Moving, moved_ends, moved_ids, staying_owners};
use fc_alloc::Owners;
use fc_change::{Growth, Job, Wants};
use fc_device::NoMemory;
use fc_record::Geometry;
use fc_tree::Tree;
use std::alloc::Global;

// Adds a node, if there is one.
fn push_if(nodes: &mut Vec<u64>, n: Option<u64>) -> Result<(), NoMemory>
    ensures { OnOk result (nodes.new.items ≡ nodes.old.items ++ option_to_list n) }
{
    match n {
        Some(n) => push(nodes, n),
        None => Ok(()),
    }
}

// The node of a directory that gets a new identifier, if one does.
fn node_of(out: Option<Growth>) -> Option<u64>
    ensures { option_to_list result ≡ node_of out }
{
    match out {
        Some(growth) => Some(growth.node),
        None => None,
    }
}

// The nodes of the objects that leave their identifiers.
fn leaving_of(alloc: Global, wants: &Wants, out: Option<Growth>) -> Result<Vec<u64>, NoMemory>
    ensures { IfOk result (λ nodes. nodes.items ≡ leaving_of wants.now out) }
{
    let mut nodes = Vec::new(alloc);
    push_if(&mut nodes, wants.goes)?;
    push_if(&mut nodes, wants.copied)?;
    push_if(&mut nodes, node_of(out))?;
    Ok(nodes)
}

// A directory that grows, with the sectors that it then has.
fn longer_of(g: &Geometry, grows: Option<Growth>) -> Option<Longer>
    requires { IsOfRecord g.now }
    ensures { result ≡ longer_of g.now grows }
{
    let growth = grows?;
    Some(Longer {
        node: growth.node,
        sectors: u64::from(growth.len) / u64::from(g.sector),
    })
}

/// What a job moves. `out` is a directory that grows, if it gets a new identifier.
pub fn moving_of(
    alloc: Global,
    g: &Geometry,
    tree: &Tree,
    job: &Job,
    wants: &Wants,
    out: Option<Growth>,
) -> Result<Moving, NoMemory>
    requires { IsOfRecord g.now }
    ensures { IfOk result (IsMovingFor g.now (nodes_of tree.now) job.now wants.now out) }
{
    Ok(Moving {
        changed: changed_nodes(alloc, tree, job, wants.grows, out)?,
        leaving: leaving_of(alloc, wants, out)?,
        longer: longer_of(g, wants.grows),
    })
}

/// Identifiers that move, in their order, and where each then ends.
#[derive(Drop)]
pub struct Moved {
    pub ids: Vec<u32>,
    pub ends: Vec<u64>,
}

/// The identifiers that hold a directory which is written anew and stays in them, each with its end.
pub fn moved_of(
    alloc: Global,
    g: &Geometry,
    owners: &Owners,
    moving: &Moving,
) -> Result<Moved, NoMemory>
    requires record { IsOfRecord g.now }
    requires placed { (o : Owner) → Contains owners.now o → IsPlacedOwner g.now moving.now.longer o }
    ensures { IfOk result (AreMoved g.now owners.now moving.now) }
{
    let found = staying_owners(alloc, owners, moving)?;
    let ids = moved_ids(alloc, owners, moving, &found)?;
    let ends = moved_ends(alloc, g, owners, moving, &found, &ids)?;
    Ok(Moved { ids, ends })
}

// Adds new space for so many bytes of an object, if there are some.
fn push_own(needs: &mut Vec<Need>, bytes: u32) -> Result<(), NoMemory>
    ensures { OnOk result (needs.new.items ≡ needs.old.items ++ own_need bytes) }
{
    if bytes == 0 {
        return Ok(());
    }
    let bytes = u64::from(bytes);
    push(needs, Need { id: None, bytes })
}

// Adds new space for a directory that gets a new identifier, if one does.
fn push_out(needs: &mut Vec<Need>, out: Option<Growth>) -> Result<(), NoMemory>
    ensures { OnOk result (needs.new.items ≡ needs.old.items ++ out_need out) }
{
    let Some(growth) = out else {
        return Ok(());
    };
    let bytes = u64::from(growth.len);
    push(needs, Need { id: None, bytes })
}

// Adds each identifier that moves, up to its end.
fn push_moved(needs: &mut Vec<Need>, moved: &Moved) -> Result<(), NoMemory>
    requires { length moved.now.ends.items ≡ length moved.now.ids.items }
    ensures { OnOk result (needs.new.items ≡ needs.old.items ++ paired_needs moved.now.ids.items moved.now.ends.items) }
{
    for i in 0..moved.ids.len() {
        let id = Some(moved.ids[i]);
        push(
            needs,
            Need {
                id,
                bytes: moved.ends[i],
            },
        )?;
    }
    Ok(())
}

/// What is needed: new space for so many bytes of an object, each identifier that moves up to its end, and new space for a directory that
/// gets a new identifier.
pub fn needs_of(
    alloc: Global,
    bytes: u32,
    moved: &Moved,
    out: Option<Growth>,
) -> Result<Vec<Need>, NoMemory>
    requires { length moved.now.ends.items ≡ length moved.now.ids.items }
    ensures { IfOk result (λ needs. needs.items ≡ own_need bytes ++ (paired_needs moved.now.ids.items moved.now.ends.items ++ out_need out)) }
{
    let mut needs = Vec::new(alloc);
    push_own(&mut needs, bytes)?;
    push_moved(&mut needs, moved)?;
    push_out(&mut needs, out)?;
    Ok(needs)
}
