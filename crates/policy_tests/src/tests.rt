//! Sessions that import alike, and sessions that do not.

ghost use Rattle.std.specs.Prelude.{◌<◌, length, IfSome};

use crate::within::is_within;
use base_kit::{Community, List, NumSet, Text};
use cfg_ast::{CommunityLine, CommunityList};
use dd_core::{NodeId, Store};
use policy_dd::{EdgeFn, accepts_some, edge_fn, same, several};
use route_maps::{Plain, PlainEntry};
use std::alloc::Global;
use std::test::Fail;

// the community 1:1
const ONE: u32 = 65537;

// the community 2:2
const TWO: u32 = 131074;

fn set_of(alloc: Global, communities: &[u32]) -> Option<NumSet> {
    let mut set = NumSet::new(alloc);
    for community in communities {
        set.add(*community).ok()?;
    }
    Some(set)
}

fn line(alloc: Global, permit: bool, communities: &[u32]) -> Option<CommunityLine> {
    let comms = set_of(alloc, communities)?;
    Some(CommunityLine {
        permit,
        comms,
        line: 1,
    })
}

fn list_of(alloc: Global, lines: List<CommunityLine>) -> CommunityList {
    CommunityList {
        name: Text::new(alloc),
        lines,
    }
}

// A list of one line, which permits all of the communities together.
fn permitting(alloc: Global, communities: &[u32]) -> Option<CommunityList> {
    let mut lines = List::new(alloc);
    lines.push(line(alloc, true, communities)?).ok()?;
    Some(list_of(alloc, lines))
}

// The list that denies 2:2, and then permits 1:1.
fn permitting_one_without_two(alloc: Global) -> Option<CommunityList> {
    let mut lines = List::new(alloc);
    lines.push(line(alloc, false, &[TWO])?).ok()?;
    lines.push(line(alloc, true, &[ONE])?).ok()?;
    Some(list_of(alloc, lines))
}

// An entry that denies what the list permits, exactly or not.
fn denying(alloc: Global, exact: bool, list: CommunityList) -> Option<PlainEntry> {
    let mut lists = List::new(alloc);
    lists.push(list).ok()?;
    Some(PlainEntry {
        seq: 10,
        permit: false,
        lists: Some(lists),
        lp: None,
        change: None,
        delete: None,
        adds: 0,
        exact,
    })
}

fn permitting_everything() -> PlainEntry {
    PlainEntry {
        seq: 30,
        permit: true,
        lists: None,
        lp: None,
        change: None,
        delete: None,
        adds: 0,
        exact: false,
    }
}

// The map of no map.
fn absent(alloc: Global) -> Option<Plain> {
    let mut entries = List::new(alloc);
    entries.push(permitting_everything()).ok()?;
    Some(Plain { entries })
}

// It denies what the list permits, and permits the rest.
fn all_but(alloc: Global, exact: bool, list: CommunityList) -> Option<Plain> {
    let mut entries = List::new(alloc);
    entries.push(denying(alloc, exact, list)?).ok()?;
    entries.push(permitting_everything()).ok()?;
    Some(Plain { entries })
}

// It denies 1:1 by two entries, first with 2:2 and then without, and permits the rest.
fn all_but_one_in_two_parts(alloc: Global) -> Option<Plain> {
    let both = permitting(alloc, &[ONE, TWO])?;
    let without = permitting_one_without_two(alloc)?;
    let mut entries = List::new(alloc);
    entries.push(denying(alloc, false, both)?).ok()?;
    entries.push(denying(alloc, false, without)?).ok()?;
    entries.push(permitting_everything()).ok()?;
    Some(Plain { entries })
}

fn store_of(alloc: Global, communities: &[u32]) -> Option<Store> {
    let universe = set_of(alloc, communities)?;
    Store::new(alloc, &universe).ok()
}

// The function of a session whose out map is absent.
fn function_of(alloc: Global, store: &mut Store, into: &Plain) -> Option<EdgeFn> {
    let out = absent(alloc)?;
    let universe = store.universe().copy().ok()?;
    if is_within(&universe, &out) && is_within(&universe, into) {
        return edge_fn(alloc, store, &out, true, into).ok();
    }
    None
}

fn known(store: &Store, a: NodeId) -> Option<NodeId>
    ensures { IfSome result (λ node. node < length store.now.nodes) }
{
    if a.place() < store.len() {
        return Some(a);
    }
    None
}

fn var(store: &mut Store, community: u32) -> Option<NodeId> {
    if store.universe().has(community) {
        return store.var(Community(community)).ok();
    }
    None
}

fn not(store: &mut Store, a: NodeId) -> Option<NodeId> {
    let a = known(store, a)?;
    store.not(a).ok()
}

fn and(store: &mut Store, a: NodeId, b: NodeId) -> Option<NodeId> {
    let a = known(store, a)?;
    let b = known(store, b)?;
    store.and(a, b).ok()
}

fn needs_others(store: &Store, a: NodeId) -> Option<bool> {
    let a = known(store, a)?;
    store.needs_others(a).ok()
}

fn eval(store: &Store, a: NodeId, set: &NumSet) -> Option<bool> {
    let a = known(store, a)?;
    Some(store.eval(a, set))
}

// The sets without 1:1.
fn without_one(store: &mut Store) -> Option<NodeId> {
    let one = var(store, ONE)?;
    not(store, one)
}

// All sets but that of 1:1, where no other community has a variable.
fn all_sets_but_one(store: &mut Store) -> Option<NodeId> {
    let one = var(store, ONE)?;
    let others = store.others().ok()?;
    let no_others = not(store, others)?;
    let alone = and(store, one, no_others)?;
    not(store, alone)
}

fn has_preference(cases: &[(u32, NodeId)], node: NodeId) -> bool {
    cases.len() == 1 && cases[0].0 == 100 && cases[0].1 == node
}

fn has_count(cases: &[(u8, NodeId)], node: NodeId) -> bool {
    cases.len() == 1 && cases[0].0 == 0 && cases[0].1 == node
}

// Whether the node tells all that the function does. The function has one preference and adds nothing.
fn is_told_by(store: &Store, edge: &EdgeFn, node: NodeId) -> bool {
    edge.permit == node
        && edge.rest == node
        && has_preference(edge.lps.as_slice(), node)
        && has_count(edge.adds.as_slice(), node)
        && edge.outs.is_empty()
        && accepts_some(store, edge)
        && !several(store, edge, edge)
}

// Whether both maps deny each set with 1:1, in one form.
fn both_deny_one(alloc: Global) -> Option<bool> {
    let mut store = store_of(alloc, &[ONE, TWO])?;
    let list = permitting(alloc, &[ONE])?;
    let edge = function_of(alloc, &mut store, &all_but(alloc, false, list)?)?;
    let other = function_of(alloc, &mut store, &all_but_one_in_two_parts(alloc)?)?;
    let node = without_one(&mut store)?;
    Some(same(&store, &edge, &other) && is_told_by(&store, &edge, node))
}

// Whether the exact match denies the set of 1:1 and no other.
fn denies_one_set(alloc: Global) -> Option<bool> {
    let mut store = store_of(alloc, &[ONE])?;
    let list = permitting(alloc, &[ONE])?;
    let edge = function_of(alloc, &mut store, &all_but(alloc, true, list)?)?;
    let node = all_sets_but_one(&mut store)?;
    let alone = eval(&store, node, &set_of(alloc, &[ONE])?)?;
    let beside = eval(&store, node, &set_of(alloc, &[5, ONE])?)?;
    Some(!alone && beside && needs_others(&store, node)? && is_told_by(&store, &edge, node))
}

// The communities from 1:1 to 1:200.
fn two_hundred(alloc: Global) -> Option<NumSet> {
    let mut set = NumSet::new(alloc);
    for i in 0..200u32 {
        set.add(ONE + i).ok()?;
    }
    Some(set)
}

// The list with a line for each community from 1:1 to 1:200, upwards or downwards. Each line permits;
// that of 1:200 does so only if `last` is true.
fn line_by_line(alloc: Global, upwards: bool, last: bool) -> Option<CommunityList> {
    let mut lines = List::new(alloc);
    for i in 0..200u32 {
        let number = if upwards { i } else { 199 - i };
        lines
            .push(line(alloc, last || number < 199, &[ONE + number])?)
            .ok()?;
    }
    Some(list_of(alloc, lines))
}

// Whether the maps that deny what these lists of 200 communities permit are the same.
fn are_same(alloc: Global, list: CommunityList, other: CommunityList) -> Option<bool> {
    let universe = two_hundred(alloc)?;
    let mut store = Store::new(alloc, &universe).ok()?;
    let edge = function_of(alloc, &mut store, &all_but(alloc, false, list)?)?;
    let other = function_of(alloc, &mut store, &all_but(alloc, false, other)?)?;
    Some(same(&store, &edge, &other))
}

#[test]
fn maps_that_deny_the_same_sets_are_the_same(rt: HostRuntime) -> Result<(), Fail> {
    let is_right = both_deny_one(rt.alloc()).ok_or("memory")?;
    assert!(rt; is_right);
    Ok(())
}

#[test]
fn an_exact_match_denies_one_set(rt: HostRuntime) -> Result<(), Fail> {
    let is_right = denies_one_set(rt.alloc()).ok_or("memory")?;
    assert!(rt; is_right);
    Ok(())
}

#[test]
fn lists_of_two_hundred_communities_in_two_orders_are_the_same(
    rt: HostRuntime,
) -> Result<(), Fail> {
    let upwards = line_by_line(rt.alloc(), true, true).ok_or("memory")?;
    let downwards = line_by_line(rt.alloc(), false, true).ok_or("memory")?;
    let are_same = are_same(rt.alloc(), upwards, downwards).ok_or("memory")?;
    assert!(rt; are_same);
    Ok(())
}

#[test]
fn lists_that_differ_in_one_of_two_hundred_communities_are_told_apart(
    rt: HostRuntime,
) -> Result<(), Fail> {
    let upwards = line_by_line(rt.alloc(), true, true).ok_or("memory")?;
    let downwards = line_by_line(rt.alloc(), false, false).ok_or("memory")?;
    let are_same = are_same(rt.alloc(), upwards, downwards).ok_or("memory")?;
    assert!(rt; !are_same);
    Ok(())
}
