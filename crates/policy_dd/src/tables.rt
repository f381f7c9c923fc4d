//! Nodes under keys.

ghost use Rattle.std.specs.Prelude.{◌≡◌, ◌≢◌, ◌<◌, ℕ, length, IfOk, ◌&&◌, ◌||◌, true, false};
ghost use Rattle.base_kit.specs.Sets.{has};
ghost use Rattle.dd_core.specs.Sets.{value_of, Grows};
ghost use Rattle.policy_dd.specs.Edge.{keys_of};
ghost use Rattle.policy_dd.specs.Tables.{AllInside, node_at, keys_below, key_of_case, put_case, IsMoreBy, IsTableGrown, IsPushedUnlessPlain};

use base_kit::{List, NoMemory, NumSet};
use dd_core::{NodeId, Store, is_same};

pub fn key_in(case: &(u32, NodeId)) -> u32
    ensures { result ≡ case.now.0 }
{
    case.0
}

pub fn node_in(case: &(u32, NodeId)) -> NodeId
    ensures { result ≡ case.now.1 }
{
    case.1
}

/// The node under a key.
pub fn node_of(cases: &[(u32, NodeId)], key: u32) -> Option<NodeId>
    ensures { result ≡ node_at cases.now key }
{
    for (k, node) in cases {
        if *k == key {
            return Some(*node);
        }
    }
    None
}

/// How many cases at the front have lesser keys.
fn place_of(cases: &[(u32, NodeId)], key: u32) -> usize
    ensures { result ≡ keys_below key cases.now }
{
    for (place, case) in cases.iter().enumerate() {
        if key_in(case) >= key {
            return place;
        }
    }
    cases.len()
}

fn has_key_at(cases: &[(u32, NodeId)], place: usize, key: u32) -> bool
    ensures there { result ≡ true → (place < length cases.now) × (key_of_case cases.now place ≡ key) }
    ensures other { result ≡ false → place < length cases.now → key_of_case cases.now place ≢ key }
{
    if place >= cases.len() {
        return false;
    }
    key_in(&cases[place]) == key
}

/// Puts the node under the key, in the order of keys.
fn put(cases: List<(u32, NodeId)>, key: u32, node: NodeId) -> Result<List<(u32, NodeId)>, NoMemory>
    ensures { IfOk result (λ r. r ≡ put_case key node cases) }
{
    let place = place_of(cases.as_slice(), key);
    let mut cases = cases;
    if has_key_at(cases.as_slice(), place, key) {
        let _old = cases.remove(place);
        cases.insert(place, (key, node))?;
        return Ok(cases);
    }
    cases.insert(place, (key, node))?;
    Ok(cases)
}

/// Puts the node under the key, or joins it to the one that is there.
pub fn or_into(
    store: &mut Store,
    cases: List<(u32, NodeId)>,
    key: u32,
    node: NodeId,
) -> Result<List<(u32, NodeId)>, NoMemory>
    requires inside { AllInside store.old cases }
    requires node_inside { node < length store.old.nodes }
    ensures grows { Grows store.old store.new }
    ensures more { IfOk result (λ r. IsMoreBy store.old store.new cases r key node) }
{
    match node_of(cases.as_slice(), key) {
        Some(old) => {
            let both = store.or(old, node)?;
            let more = put(cases, key, both)?;
            Ok(more)
        }
        None => {
            let more = put(cases, key, node)?;
            Ok(more)
        }
    }
}

/// Puts or joins the node under each of the keys.
pub fn or_all(
    store: &mut Store,
    cases: List<(u32, NodeId)>,
    keys: &[u32],
    node: NodeId,
) -> Result<List<(u32, NodeId)>, NoMemory>
    requires inside { AllInside store.old cases }
    requires node_inside { node < length store.old.nodes }
    ensures grows { Grows store.old store.new }
    ensures more { IfOk result (λ r. IsTableGrown store.old store.new cases r keys.now (λ k set. has keys.now k && value_of store.old set node)) }
{
    let mut all = cases;
    for key in keys {
        all = or_into(store, all, *key, node)?;
    }
    Ok(all)
}

/// The set with the keys of a table put in.
pub fn with_keys(set: NumSet, cases: &[(u32, NodeId)]) -> Result<NumSet, NoMemory>
    ensures { IfOk result (λ r. (k : ℕ) → has r k ≡ has set k || has (keys_of cases.now) k) }
{
    let mut set = set;
    for case in cases {
        set.add(key_in(case))?;
    }
    Ok(set)
}

/// Puts a case last, unless its node is the plain one.
pub fn push_unless_plain(
    store: &Store,
    cases: List<(u32, NodeId)>,
    key: u32,
    node: NodeId,
    plain: NodeId,
) -> Result<List<(u32, NodeId)>, NoMemory>
    requires node_inside { node < length store.now.nodes }
    requires plain_inside { plain < length store.now.nodes }
    ensures { IfOk result (λ r. IsPushedUnlessPlain store.now cases r key node plain) }
{
    if is_same(store, node, plain) {
        return Ok(cases);
    }
    let mut cases = cases;
    cases.push((key, node))?;
    Ok(cases)
}
