// What a volume becomes when a change is written.
ghost use Rattle.std.specs.Prelude.{◌≡◌, ◌+◌, Some, Contains, IfSome, IsSome, IsTrue, OnErr, OnOk};
ghost use Rattle.fc_alloc.specs.Owners.{has_node, with_changed};
ghost use Rattle.std.specs.FinMap.{get};
ghost use Rattle.fc_drafts.specs.Draft.{directory_in};
ghost use Rattle.fc_laws.specs.nodes.Edits.{with_body, with_edited};
ghost use Rattle.fc_space.specs.Space.{layout_of};
ghost use Rattle.fc_tree.specs.Nodes.{body_in, next_number, nodes_of};
ghost use Rattle.fc_tree.specs.declared.node.Node.{Node};
ghost use Rattle.fc_change.specs.Owned.{entry_owner};
ghost use Rattle.fc_change.specs.After.{AreOwnersAfter, CanRegrowNode, CanTakeOver, CanTurnNode, CanTurnOwner, IsRegrownOwner, IsTurnedOwner, body_said, gone_in, nodes_after, nodes_more, owners_admitted, with_regrown, with_said, with_turned, without_gone};

use crate::change::{Change, Regrowth, Says, Turned};
use crate::directories::body_of;
use crate::owner::{entry_owner, make_room, owner_if, set_owner};
use fc_alloc::Owners;
use fc_device::NoMemory;
use fc_dirs::Entry;
use fc_drafts::Draft;
use fc_space::Places;
use fc_tree::{Body, Node, Tree};

// ---- memory, before anything is written

/// Takes the memory that a change needs in a volume: a node for an object that comes, and an owner for one that gets sectors. After
/// `NoMemory` all is as before.
pub fn admit(
    tree: &mut Tree,
    owners: &mut Owners,
    places: &Places,
    change: &Change,
) -> Result<(), NoMemory>
    ensures tree { OnOk result (tree.new ≡ record tree.old { room = tree.old.room + nodes_more change.now.object }) }
    ensures owners { OnOk result (owners.new ≡ owners_admitted (layout_of places.now) change.now.object (next_number tree.old) owners.old) }
    ensures no_tree { OnErr result (tree.new ≡ tree.old) }
    ensures no_owners { OnErr result (owners.new ≡ owners.old) }
{
    match &change.object {
        Turned::Comes(holder, entry, _) => {
            let n = tree.next_number();
            let owner = owner_if(places.space(), n, *holder, entry);
            tree.reserve()?;
            if make_room(owners, owner).is_err() {
                tree.release();
                return Err(NoMemory);
            }
            Ok(())
        }
        Turned::Turns(n, holder, entry) => {
            make_room(owners, owner_if(places.space(), *n, *holder, entry))
        }
        Turned::Goes(_) => Ok(()),
    }
}

// ---- taken over, when it is written: nothing of this takes memory

// The directory of a node says what the draft says.
fn set_body(tree: &mut Tree, n: u64, draft: Draft)
    requires { IsSome (get (nodes_of tree.old) n) }
    ensures { nodes_of tree.new ≡ with_body n (body_in (directory_in draft)) (nodes_of tree.old) }
{
    let _ = tree.bound();
    let mut node = tree.take_out(n);
    node.body = body_of(draft);
    tree.put_back(n, node);
}

// Each directory says what it is told.
fn set_bodies(tree: &mut Tree, says: Vec<Says>)
    requires { (s : Says) → Contains says.items s → IsSome (get (nodes_of tree.old) s.node) }
    ensures { nodes_of tree.new ≡ with_said says.items (nodes_of tree.old) }
{
    for said in says {
        set_body(tree, said.node, said.draft);
    }
}

// A grown directory has its new place.
fn set_place(tree: &mut Tree, g: Regrowth)
    requires { IsSome (get (nodes_of tree.old) g.node) }
    ensures nodes { nodes_of tree.new ≡ with_regrown (Some g) (nodes_of tree.old) }
    ensures room { tree.new.room ≡ tree.old.room }
    ensures next { next_number tree.new ≡ next_number tree.old }
{
    let _ = tree.bound();
    let mut node = tree.take_out(g.node);
    node.entry.address = g.address;
    node.entry.len = g.len;
    tree.put_back(g.node, node);
}

// The owner of a node has the place that the node's entry says.
fn renew_owner(owners: &mut Owners, tree: &Tree, places: &Places, n: u64)
    requires node { IsSome (get (nodes_of tree.now) n) }
    requires owner { IsTrue (has_node owners.old n) }
    ensures { (node : Node) → get (nodes_of tree.now) n ≡ Some node → owners.new ≡ with_changed (entry_owner (layout_of places.now) n node.holder node.entry) owners.old }
{
    let node = tree.node(n).unwrap();
    owners.change(entry_owner(places.space(), n, node.holder, &node.entry));
}

// A grown directory has its new place, and so has its owner.
fn regrow(tree: &mut Tree, owners: &mut Owners, places: &Places, grown: Option<Regrowth>)
    requires { CanRegrowNode (nodes_of tree.old) owners.old grown }
    ensures nodes { nodes_of tree.new ≡ with_regrown grown (nodes_of tree.old) }
    ensures owners { IsRegrownOwner (layout_of places.now) (nodes_of tree.old) grown owners.old owners.new }
    ensures room { tree.new.room ≡ tree.old.room }
    ensures next { next_number tree.new ≡ next_number tree.old }
{
    if let Some(g) = grown {
        set_place(tree, g);
        renew_owner(owners, tree, places, g.node);
    }
}

// The object of a node has another entry and holder.
fn move_node(tree: &mut Tree, n: u64, holder: u64, entry: Entry)
    requires { IsSome (get (nodes_of tree.old) n) }
    ensures { nodes_of tree.new ≡ with_edited n (λ (node : Node). record node { holder = holder; entry = entry }) (nodes_of tree.old) }
{
    let _ = tree.bound();
    let mut node = tree.take_out(n);
    node.holder = holder;
    node.entry = entry;
    tree.put_back(n, node);
}

// What a new object says, as the body of its node.
fn body_with(own: Option<Draft>) -> Body
    ensures { result ≡ body_said own }
{
    match own {
        Some(draft) => body_of(draft),
        None => Body::File,
    }
}

// The object comes, or has another entry and holder.
fn turn(tree: &mut Tree, object: Turned)
    requires { CanTurnNode (nodes_of tree.old) tree.old.room object }
    ensures { nodes_of tree.new ≡ with_turned object (next_number tree.old) (nodes_of tree.old) }
{
    match object {
        Turned::Comes(holder, entry, own) => {
            tree.add(Node {
                holder,
                entry,
                body: body_with(own),
            });
        }
        Turned::Turns(n, holder, entry) => move_node(tree, n, holder, entry),
        Turned::Goes(_) => {}
    }
}

// So do the owners.
fn turn_owner(owners: &mut Owners, places: &Places, object: &Turned)
    requires { CanTurnOwner (layout_of places.now) owners.old object.now }
    ensures { IsTurnedOwner (layout_of places.now) object.now owners.old owners.new }
{
    match object {
        Turned::Comes(_, _, _) => {}
        Turned::Turns(n, holder, entry) => {
            set_owner(owners, *n, owner_if(places.space(), *n, *holder, entry));
        }
        Turned::Goes(n) => set_owner(owners, *n, None),
    }
}

// The node of an object that goes, if it goes.
fn gone_in(object: &Turned) -> Option<u64>
    ensures { result ≡ gone_in object.now }
{
    match object {
        Turned::Goes(n) => Some(*n),
        _ => None,
    }
}

// The object that goes is out.
fn take_gone(tree: &mut Tree, gone: Option<u64>)
    requires { IfSome gone (λ n. IsSome (get (nodes_of tree.old) n)) }
    ensures { nodes_of tree.new ≡ without_gone gone (nodes_of tree.old) }
{
    if let Some(n) = gone {
        let _ = tree.take_out(n);
    }
}

/// The nodes and the owners become those after a change that was written: `places` is the map then. It never runs out of memory.
pub fn take_over(tree: &mut Tree, owners: &mut Owners, places: &Places, change: Change)
    requires { CanTakeOver (layout_of places.now) (nodes_of tree.old) owners.old tree.old.room change }
    ensures nodes { nodes_of tree.new ≡ nodes_after change (next_number tree.old) (nodes_of tree.old) }
    ensures owners { AreOwnersAfter (layout_of places.now) (nodes_of tree.old) change owners.old owners.new }
{
    let Change {
        says,
        object,
        grown,
    } = change;
    regrow(tree, owners, places, grown);
    turn_owner(owners, places, &object);
    let gone = gone_in(&object);
    turn(tree, object);
    set_bodies(tree, says);
    take_gone(tree, gone);
}
