//! The parts of a function: questions, preferences and counts, and the community that decides next.

ghost use Rattle.std.specs.Prelude.{◌≡◌, ◌<◌, ◌⊎◌, ℕ, Bool, List as Items, IfOk, IfSome, length, true};
ghost use Rattle.std.specs.List.{AllByRecursion};
ghost use Rattle.std.specs.Option.{option_map};
ghost use Rattle.base_kit.specs.Sets.{has};
ghost use Rattle.dd_core.specs.Sets.{Grows, Means, value_of};
ghost use Rattle.canon_policy.specs.declared.fixing.Fixing.{Fixing};
ghost use Rattle.canon_policy.specs.Fixings.{Part, Asked, agreeing, least, unsettled, first_unsettled, split};
ghost use Rattle.canon_policy.specs.Fixings.Part.{community as of_community};
ghost use Rattle.canon_policy.specs.Hanging.{TestHangsOn, NumberHangsOn, PartHangsOn, PartsHangOn, AskedHangsOn};
ghost use Rattle.canon_policy.specs.Nodes.{AreInside, IsPartInside, AreFunctionNodesInside, NodesTellPart, AreNodesOf, IsTold, ArePartsTold, community_number, lesser};

use base_kit::{Community, List, NoMemory, NumSet};
use dd_core::{NodeId, Store, is_same};
use std::alloc::Global;

/// The nodes of a part of a function of a session.
#[derive(Drop)]
pub enum PartNodes {
    /// A part whose number these nodes determine: two sets give one number exactly if each node has one
    /// value on both.
    Told(List<NodeId>),
    /// Whether a community is in the result.
    Carried(Community, NodeId),
}

/// The nodes of acceptance, of whether communities outside the universe are kept, and of the parts in their order.
#[derive(Drop)]
pub struct Nodes {
    pub permit: NodeId,
    pub rest: NodeId,
    pub parts: List<PartNodes>,
}

fn lesser(a: Option<Community>, b: Option<Community>) -> Option<Community>
    ensures lesser { option_map community_number result ≡ lesser (option_map community_number a) (option_map community_number b) }
    ensures either { (result ≡ a) ⊎ (result ≡ b) }
{
    match (a, b) {
        (Some(a), Some(b)) => { if a.0 <= b.0 { Some(a) } else { Some(b) } }
        (Some(a), None) => Some(a),
        (None, b) => b,
    }
}

// The least community on which one of the nodes depends.
fn least_of(store: &Store, nodes: &[NodeId]) -> Option<Community>
    requires { AreInside store.now nodes.now }
    ensures known { IfSome result (λ c. has store.now.universe c.0 ≡ true) }
    ensures least { (part : Items ℕ → ℕ) → NumberHangsOn store.now.universe part → NodesTellPart store.now nodes.now part → option_map community_number result ≡ least store.now.universe part }
{
    let _known = store.len();
    let mut least = None;
    for node in nodes {
        least = lesser(least, store.first(*node));
    }
    least
}

// The least community on which the carrying of a community depends; none if that is settled.
fn least_of_carried(
    alloc: Global,
    store: &mut Store,
    rest: NodeId,
    community: Community,
    node: NodeId,
) -> Result<Option<Community>, NoMemory>
    requires rest { rest < length store.old.nodes }
    requires node { node < length store.old.nodes }
    requires known { has store.old.universe community.0 ≡ true }
    ensures grows { Grows store.old store.new }
    ensures known { IfOk result (λ r. IfSome r (λ c. has store.old.universe c.0 ≡ true)) }
    ensures unsettled { (kept test : Items ℕ → Bool) (fixing : Fixing) → TestHangsOn store.old.universe kept → TestHangsOn store.old.universe test
        → Means store.old rest (λ set. kept (agreeing fixing set)) → Means store.old node (λ set. test (agreeing fixing set))
        → IfOk result (λ r. option_map community_number r ≡ unsettled store.old.universe kept fixing (of_community community.0 test)) }
{
    let follows = store.var(community)?;
    let _known = store.len();
    let kept = store.eval(rest, &NumSet::new(alloc));
    if kept && is_same(store, node, follows) {
        return Ok(None);
    }
    Ok(store.first(node))
}

fn least_of_part(
    alloc: Global,
    store: &mut Store,
    rest: NodeId,
    part: &PartNodes,
) -> Result<Option<Community>, NoMemory>
    requires rest { rest < length store.old.nodes }
    requires part { IsPartInside store.old part.now }
    ensures grows { Grows store.old store.new }
    ensures known { IfOk result (λ r. IfSome r (λ c. has store.old.universe c.0 ≡ true)) }
    ensures unsettled { (kept : Items ℕ → Bool) (fixing : Fixing) (asked : Part) → TestHangsOn store.old.universe kept → PartHangsOn store.old.universe asked
        → Means store.old rest (λ set. kept (agreeing fixing set)) → IsTold store.old fixing part.now asked
        → IfOk result (λ r. option_map community_number r ≡ unsettled store.old.universe kept fixing asked) }
{
    match part {
        PartNodes::Told(nodes) => Ok(least_of(store, nodes.as_slice())),
        PartNodes::Carried(community, node) => {
            least_of_carried(alloc, store, rest, *community, *node)
        }
    }
}

// The least community on which the first part that is not settled depends.
fn first_unsettled(
    alloc: Global,
    store: &mut Store,
    rest: NodeId,
    parts: &[PartNodes],
) -> Result<Option<Community>, NoMemory>
    requires rest { rest < length store.old.nodes }
    requires parts { AllByRecursion (IsPartInside store.old) parts.now }
    ensures grows { Grows store.old store.new }
    ensures known { IfOk result (λ r. IfSome r (λ c. has store.old.universe c.0 ≡ true)) }
    ensures unsettled { (kept : Items ℕ → Bool) (fixing : Fixing) (asked : Items Part) → TestHangsOn store.old.universe kept → PartsHangOn store.old.universe asked
        → Means store.old rest (λ set. kept (agreeing fixing set)) → ArePartsTold store.old fixing parts.now asked
        → IfOk result (λ r. option_map community_number r ≡ first_unsettled (unsettled store.old.universe kept fixing) asked) }
{
    for part in parts {
        let unsettled = least_of_part(alloc, store, rest, part)?;
        if unsettled.is_some() {
            return Ok(unsettled);
        }
    }
    Ok(None)
}

/// The community by which a fixing is split: the least on which its first unsettled part depends. None
/// where the fixing is settled.
pub fn split_by(
    alloc: Global,
    store: &mut Store,
    nodes: &Nodes,
) -> Result<Option<Community>, NoMemory>
    requires { AreFunctionNodesInside store.old nodes.now }
    ensures grows { Grows store.old store.new }
    ensures known { IfOk result (λ r. IfSome r (λ c. has store.old.universe c.0 ≡ true)) }
    ensures split { (asked : Asked) (fixing : Fixing) → AskedHangsOn store.old.universe asked → AreNodesOf store.old fixing nodes.now asked
        → IfOk result (λ r. option_map community_number r ≡ split store.old.universe asked fixing) }
{
    let _known = store.len();
    let first = store.first(nodes.permit);
    if first.is_some() {
        return Ok(first);
    }
    let accepted = store.eval(nodes.permit, &NumSet::new(alloc));
    if accepted {
        return first_unsettled(alloc, store, nodes.rest, nodes.parts.as_slice());
    }
    Ok(None)
}
