//! The function of two maps, one behind the other.

ghost use Rattle.std.specs.Prelude.{◌≡◌, ◌<◌, ◌≤◌, ◌&&◌, ℕ, length, IfOk, true, false};
ghost use Rattle.base_kit.specs.Sets.{has, IsAscending};
ghost use Rattle.dd_core.specs.Sets.{value_of, Grows};
ghost use Rattle.policy_dd.specs.Built.{AreOutKeys, AreOuts, IsOutPushed, IsPutTogether};
ghost use Rattle.policy_dd.specs.Edge.{case_or, keys_of, never, by_number};
ghost use Rattle.policy_dd.specs.MapRun.{AreMapInside};
ghost use Rattle.policy_dd.specs.Matches.{AreNodesInside};
ghost use Rattle.policy_dd.specs.Tables.{AllInside, IsSelection};

use crate::EdgeFn;
use crate::matches::{Carried, condition};
use crate::session::Crossing;
use crate::tables::{key_in, node_in, push_unless_plain, with_keys};
use base_kit::{Community, List, NoMemory, NumSet};
use dd_core::{NodeId, Store, is_same};
use std::alloc::Global;

/// The cases where `with` is true too, without those that are never true.
fn limit(
    alloc: Global,
    store: &mut Store,
    cases: &[(u32, NodeId)],
    with: NodeId,
) -> Result<List<(u32, NodeId)>, NoMemory>
    requires inside { AllInside store.old cases.now }
    requires ascending { IsAscending (keys_of cases.now) }
    requires with_inside { with < length store.old.nodes }
    ensures grows { Grows store.old store.new }
    ensures limited { IfOk result (IsSelection store.new never (λ k set. case_or store.old set cases.now k false && value_of store.old set with) (keys_of cases.now)) }
{
    let never = store.constant(false);
    let mut limited = List::new(alloc);
    for case in cases {
        let key = key_in(case);
        let there = node_in(case);
        let node = store.and(there, with)?;
        limited = push_unless_plain(store, limited, key, node, never)?;
    }
    Ok(limited)
}

/// The communities that can be carried otherwise than the rest: if `few`, only those with a node of
/// their own, else all of the universe.
fn out_keys(alloc: Global, store: &Store, carried: &Carried, few: bool) -> Result<NumSet, NoMemory>
    requires { AreNodesInside store.now carried.now }
    ensures { IfOk result (AreOutKeys store.now carried.now few) }
{
    if few {
        let keys = with_keys(NumSet::new(alloc), carried.outs.as_slice())?;
        return Ok(keys);
    }
    let keys = store.universe().copy()?;
    Ok(keys)
}

/// One community more, unless it is carried as the rest is.
fn push_out(
    store: &mut Store,
    outs: List<(u32, NodeId)>,
    permit: NodeId,
    carried: &Carried,
    rest: NodeId,
    community: u32,
) -> Result<List<(u32, NodeId)>, NoMemory>
    requires permit_inside { permit < length store.old.nodes }
    requires inside { AreNodesInside store.old carried.now }
    requires rest_inside { rest < length store.old.nodes }
    requires known { has store.old.universe community ≡ true }
    ensures grows { Grows store.old store.new }
    ensures pushed { IfOk result (λ r. IsOutPushed store.old store.new outs permit carried.now rest community r) }
{
    let there = store.var(Community(community))?;
    let plain = store.and(there, rest)?;
    let here = condition(store, carried, community)?;
    let node = store.and(permit, here)?;
    let more = push_unless_plain(store, outs, community, node, plain)?;
    Ok(more)
}

/// The communities that some accepted set carries otherwise than the rest.
fn outs_of(
    alloc: Global,
    store: &mut Store,
    permit: NodeId,
    carried: &Carried,
    rest: NodeId,
) -> Result<List<(u32, NodeId)>, NoMemory>
    requires permit_inside { permit < length store.old.nodes }
    requires inside { AreNodesInside store.old carried.now }
    requires rest_inside { rest < length store.old.nodes }
    ensures grows { Grows store.old store.new }
    ensures outs { IfOk result (AreOuts store.old store.new permit carried.now rest) }
{
    let kept = store.and(permit, carried.rest)?;
    let few = is_same(store, kept, rest);
    let looked_at = out_keys(alloc, store, carried, few)?;
    let keys = looked_at.as_slice();
    let mut outs = List::new(alloc);
    for key in keys {
        outs = push_out(store, outs, permit, carried, rest, *key)?;
    }
    Ok(outs)
}

fn counts(alloc: Global, cases: &[(u32, NodeId)]) -> Result<List<(u8, NodeId)>, NoMemory>
    requires { (k : ℕ) → has (keys_of cases.now) k ≡ true → k ≤ 255 }
    ensures { IfOk result (λ r. r ≡ cases.now) }
{
    let mut counts = List::new(alloc);
    for case in cases {
        let count = key_in(case) as u8;
        counts.push((count, node_in(case)))?;
    }
    Ok(counts)
}

fn communities(
    alloc: Global,
    cases: &[(u32, NodeId)],
) -> Result<List<(Community, NodeId)>, NoMemory>
    ensures { IfOk result (λ r. by_number r ≡ cases.now) }
{
    let mut named = List::new(alloc);
    for case in cases {
        let community = Community(key_in(case));
        named.push((community, node_in(case)))?;
    }
    Ok(named)
}

/// The function that both maps make, where `beyond` tells whether an outside community would be kept.
pub fn joined(
    alloc: Global,
    store: &mut Store,
    seen: &Crossing,
    beyond: NodeId,
) -> Result<EdgeFn, NoMemory>
    requires first { AreMapInside store.old seen.now.first }
    requires second { AreMapInside store.old seen.now.second }
    requires end { AreNodesInside store.old seen.now.end }
    requires beyond { beyond < length store.old.nodes }
    requires lps { IsAscending (keys_of seen.now.second.lps) }
    requires adds { IsAscending (keys_of seen.now.first.adds) }
    ensures grows { Grows store.old store.new }
    ensures joined { IfOk result (IsPutTogether store.old store.new seen.now beyond) }
{
    let permit = store.and(seen.first.permit, seen.second.permit)?;
    let lps = limit(alloc, store, seen.second.lps.as_slice(), seen.first.permit)?;
    let adds = limit(alloc, store, seen.first.adds.as_slice(), seen.second.permit)?;
    let rest = store.and(permit, beyond)?;
    let outs = outs_of(alloc, store, permit, &seen.end, rest)?;
    let counts = counts(alloc, adds.as_slice())?;
    let communities = communities(alloc, outs.as_slice())?;
    Ok(EdgeFn {
        permit,
        lps,
        adds: counts,
        outs: communities,
        rest,
    })
}
