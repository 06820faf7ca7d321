// Sets of numbers, as lists that rise.
ghost use Rattle.std.specs.Prelude.{◌≡◌, ◌<◌, ℕ, MatchOption, false, get_or, length};
ghost use Rattle.std.specs.List.Sorted.{IsStrictlyIncreasing};
ghost use Rattle.fc_plan.specs.Giving.{is_one_of};

/// Nodes in their order, each once.
pub fn node_set(nodes: Vec<u64>) -> Vec<u64>
    ensures rising { IsStrictlyIncreasing result.items }
    ensures same { (n : ℕ) → is_one_of result.items n ≡ is_one_of nodes.items n }
{
    let mut nodes = nodes;
    nodes.sort_unstable();
    nodes.dedup();
    nodes
}

/// Identifiers in their order, each once.
pub fn id_set(ids: Vec<u32>) -> Vec<u32>
    ensures rising { IsStrictlyIncreasing result.items }
    ensures same { (n : ℕ) → is_one_of result.items n ≡ is_one_of ids.items n }
{
    let mut ids = ids;
    ids.sort_unstable();
    ids.dedup();
    ids
}

/// Zones in their order, each once.
pub fn zone_set(zones: Vec<u16>) -> Vec<u16>
    ensures rising { IsStrictlyIncreasing result.items }
    ensures same { (n : ℕ) → is_one_of result.items n ≡ is_one_of zones.items n }
{
    let mut zones = zones;
    zones.sort_unstable();
    zones.dedup();
    zones
}

/// Whether a node is one of a set.
pub fn has_node(nodes: &[u64], n: u64) -> bool
    requires { IsStrictlyIncreasing nodes.now }
    ensures { result ≡ is_one_of nodes.now n }
{
    nodes.binary_search(&n).is_ok()
}

/// Where an identifier stands in a set, if it is one of it.
pub fn place_of_id(ids: &[u32], id: u32) -> Option<usize>
    requires { IsStrictlyIncreasing ids.now }
    ensures { MatchOption result (is_one_of ids.now id ≡ false) (λ k. (k < length ids.now) × (get_or ids.now k 0 ≡ id)) }
{
    match ids.binary_search(&id) {
        Ok(place) => Some(place),
        Err(_) => None,
    }
}
