//! What is carried behind a map.

ghost use Rattle.std.specs.Prelude.{◌≡◌, IfOk, true};
ghost use Rattle.base_kit.specs.Sets.{has};
ghost use Rattle.route_maps.specs.Within.{AreWithin};
ghost use Rattle.dd_core.specs.Sets.{Grows, Means};
ghost use Rattle.policy_dd.specs.After.{stays_in, carries_on, AreKeysTouched, IsAfter, IsSent};
ghost use Rattle.policy_dd.specs.MapRun.{AreMapInside};
ghost use Rattle.policy_dd.specs.Matches.{AreNodesInside};
ghost use Rattle.policy_dd.specs.Tables.{IsTabled};

use crate::map_run::MapFn;
use crate::matches::{Carried, condition};
use crate::tables::{node_of, with_keys};
use base_kit::{List, NoMemory, NumSet};
use dd_core::{NodeId, Store};
use std::alloc::Global;

/// The sets on which the map leaves the community.
fn stays(store: &mut Store, m: &MapFn, community: u32) -> Result<NodeId, NoMemory>
    requires { AreMapInside store.old m.now }
    ensures grows { Grows store.old store.new }
    ensures stays { IfOk result (λ node. Means store.new node (λ set. stays_in store.old m.now set community)) }
{
    match node_of(m.odd.as_slice(), community) {
        Some(odd) => {
            let gone = store.not(m.rest)?;
            let node = store.ite(odd, gone, m.rest)?;
            Ok(node)
        }
        None => Ok(m.rest),
    }
}

/// The sets on which the community is carried behind the map.
fn carried_on(
    store: &mut Store,
    carried: &Carried,
    m: &MapFn,
    community: u32,
) -> Result<NodeId, NoMemory>
    requires inside { AreNodesInside store.old carried.now }
    requires map_inside { AreMapInside store.old m.now }
    requires known { has store.old.universe community ≡ true }
    ensures grows { Grows store.old store.new }
    ensures carries { IfOk result (λ node. Means store.new node (λ set. carries_on store.old carried.now m.now set community)) }
{
    let there = condition(store, carried, community)?;
    let stays = stays(store, m, community)?;
    let kept = store.and(there, stays)?;
    match node_of(m.present.as_slice(), community) {
        Some(put) => {
            let node = store.or(put, kept)?;
            Ok(node)
        }
        None => Ok(kept),
    }
}

fn carried_outs(
    alloc: Global,
    store: &mut Store,
    carried: &Carried,
    m: &MapFn,
    keys: &[u32],
) -> Result<List<(u32, NodeId)>, NoMemory>
    requires inside { AreNodesInside store.old carried.now }
    requires map_inside { AreMapInside store.old m.now }
    requires known { AreWithin store.old.universe keys.now }
    ensures grows { Grows store.old store.new }
    ensures outs { IfOk result (IsTabled store.new (λ k set. carries_on store.old carried.now m.now set k) keys.now) }
{
    let mut outs = List::new(alloc);
    for key in keys {
        let node = carried_on(store, carried, m, *key)?;
        outs.push((*key, node))?;
    }
    Ok(outs)
}

fn touched(alloc: Global, carried: &Carried, m: &MapFn) -> Result<NumSet, NoMemory>
    ensures { IfOk result (AreKeysTouched carried.now m.now) }
{
    let keys = with_keys(NumSet::new(alloc), carried.outs.as_slice())?;
    let more = with_keys(keys, m.present.as_slice())?;
    let all = with_keys(more, m.odd.as_slice())?;
    Ok(all)
}

/// What is carried behind the map. Only communities that have a node before it, or that it names, get
/// one behind it.
pub fn after(
    alloc: Global,
    store: &mut Store,
    carried: &Carried,
    m: &MapFn,
) -> Result<Carried, NoMemory>
    requires inside { AreNodesInside store.old carried.now }
    requires map_inside { AreMapInside store.old m.now }
    ensures grows { Grows store.old store.new }
    ensures after { IfOk result (IsAfter store.old store.new carried.now m.now) }
{
    let keys = touched(alloc, carried, m)?;
    let outs = carried_outs(alloc, store, carried, m, keys.as_slice())?;
    let rest = store.and(carried.rest, m.rest)?;
    let others = store.and(carried.others, m.rest)?;
    Ok(Carried { outs, rest, others })
}

/// What is sent of what is carried behind the map: nothing where communities are not sent.
pub fn sent(
    alloc: Global,
    store: &mut Store,
    carried: &Carried,
    m: &MapFn,
    sends: bool,
) -> Result<Carried, NoMemory>
    requires inside { AreNodesInside store.old carried.now }
    requires map_inside { AreMapInside store.old m.now }
    ensures grows { Grows store.old store.new }
    ensures sent { IfOk result (IsSent store.old store.new carried.now m.now sends) }
{
    if sends {
        let all = after(alloc, store, carried, m)?;
        return Ok(all);
    }
    let never = store.constant(false);
    Ok(Carried {
        outs: List::new(alloc),
        rest: never,
        others: never,
    })
}
