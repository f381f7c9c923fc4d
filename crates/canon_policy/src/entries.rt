//! The entry of a list for a settled fixing.

ghost use Rattle.std.specs.Prelude.{true, false, ◌≡◌, ◌<◌, ◌≤◌, ◌==◌, [], ◌∷◌, IfOk, filter, length, map, Some, not, ◌&&◌, nat_eq};
ghost use Rattle.std.specs.List.{AllByRecursion};
ghost use Rattle.base_kit.specs.Sets.{IsAscending, has};
ghost use Rattle.dd_core.specs.Sets.{value_of, IsShown};
ghost use Rattle.policy_dd.specs.Edge.{by_number, keys_of};
ghost use Rattle.canon_policy.specs.Entries.{permitting_line, alone, list_of, match_of, deletion_of, addition_of, replacement_by, denying};
ghost use Rattle.canon_policy.specs.Made.{IsEdgeForm, nodes_of, carried_in, is_out, deleted_in, is_not_present, lp_in, count_in, names_made, in_made, out_made};
ghost use Rattle.canon_policy.specs.Nodes.{AreInside};

use crate::fixing::Fixing;
use base_kit::{Community, List, NoMemory, NumSet, Text};
use cfg_ast::{Change, CommunityLine, CommunityList};
use dd_core::{NodeId, Store};
use policy_dd::EdgeFn;
use route_maps::PlainEntry;
use std::alloc::Global;

fn list_of(alloc: Global, lines: List<CommunityLine>) -> CommunityList
    ensures { result ≡ list_of lines }
{
    CommunityList {
        name: Text::new(alloc),
        lines,
    }
}

fn permitting_line(comms: NumSet) -> CommunityLine
    ensures { result ≡ permitting_line comms }
{
    CommunityLine {
        permit: true,
        comms,
        line: 0,
    }
}

/// A match of the communities by one list of one line, none for no communities.
fn match_of(alloc: Global, comms: &NumSet) -> Result<Option<List<CommunityList>>, NoMemory>
    ensures { IfOk result (λ lists. lists ≡ match_of comms.now) }
{
    if comms.as_slice().is_empty() {
        return Ok(None);
    }
    let mut lines = List::new(alloc);
    lines.push(permitting_line(comms.copy()?))?;
    let mut lists = List::new(alloc);
    lists.push(list_of(alloc, lines))?;
    Ok(Some(lists))
}

fn line_alone(alloc: Global, community: u32) -> Result<CommunityLine, NoMemory>
    ensures { IfOk result (λ line. line ≡ alone community) }
{
    let mut comms = NumSet::new(alloc);
    comms.add(community)?;
    Ok(permitting_line(comms))
}

/// A deletion of the communities by one line for each, none for no communities.
fn deletion_of(alloc: Global, comms: &[u32]) -> Result<Option<CommunityList>, NoMemory>
    ensures { IfOk result (λ list. list ≡ deletion_of comms.now) }
{
    if comms.is_empty() {
        return Ok(None);
    }
    let mut lines = List::new(alloc);
    for community in comms {
        lines.push(line_alone(alloc, *community)?)?;
    }
    Ok(Some(list_of(alloc, lines)))
}

fn addition_of(alloc: Global, comms: Vec<u32>) -> Option<Change>
    requires { IsAscending comms.items }
    ensures { result ≡ addition_of comms.items }
{
    if comms.is_empty() {
        return None;
    }
    Some(Change::Append(NumSet::from_ascending(alloc, comms)))
}

fn replacement_by(alloc: Global, comms: Vec<u32>) -> Option<Change>
    requires { IsAscending comms.items }
    ensures { result ≡ replacement_by comms.items }
{
    if comms.is_empty() {
        return Some(Change::Clear);
    }
    Some(Change::Replace(NumSet::from_ascending(alloc, comms)))
}

/// The communities that are in the result of every set that agrees.
fn always_carried(
    alloc: Global,
    store: &Store,
    outs: &[(Community, NodeId)],
    present: &NumSet,
) -> Result<Vec<u32>, NoMemory>
    requires { AreInside store.now (nodes_of (by_number outs.now)) }
    ensures { IfOk result (λ carried. carried.items ≡ carried_in store.now present.now outs.now) }
{
    let mut carried = Vec::new(alloc);
    for case in outs {
        if store.eval(case.1, present) {
            carried.push(case.0.0)?;
        }
    }
    Ok(carried)
}

/// Those of these communities that are not fixed as present.
fn not_present(alloc: Global, comms: &[u32], fixing: &Fixing) -> Result<Vec<u32>, NoMemory>
    ensures { IfOk result (λ more. more.items ≡ filter (is_not_present fixing.now) comms.now) }
{
    let mut more = Vec::new(alloc);
    for community in comms {
        if !fixing.present.has(*community) {
            more.push(*community)?;
        }
    }
    Ok(more)
}

fn is_out(store: &Store, fixing: &Fixing, case: &(Community, NodeId)) -> Result<bool, NoMemory>
    requires { case.now.1 < length store.now.nodes }
    ensures { IfOk result (λ out. out ≡ is_out store.now fixing.now case.now) }
{
    if fixing.absent.has(case.0.0) {
        return Ok(false);
    }
    let mut with = fixing.present.copy()?;
    with.add(case.0.0)?;
    let carried = store.eval(case.1, &with);
    Ok(!carried)
}

/// The communities that are in no result, and in some set that agrees.
fn deleted(
    alloc: Global,
    store: &Store,
    outs: &[(Community, NodeId)],
    fixing: &Fixing,
) -> Result<Vec<u32>, NoMemory>
    requires { AreInside store.now (nodes_of (by_number outs.now)) }
    ensures { IfOk result (λ deleted. deleted.items ≡ deleted_in store.now fixing.now outs.now) }
{
    let mut deleted = Vec::new(alloc);
    for case in outs {
        let out = is_out(store, fixing, case)?;
        if out {
            deleted.push(case.0.0)?;
        }
    }
    Ok(deleted)
}

/// The preference of the sets that agree, none where it is 100.
fn preference_of(store: &Store, lps: &[(u32, NodeId)], present: &NumSet) -> Option<u32>
    requires { AreInside store.now (nodes_of lps.now) }
    ensures { result ≡ lp_in store.now present.now lps.now }
{
    for case in lps {
        let there = store.eval(case.1, present);
        if case.0 != 100 && there {
            return Some(case.0);
        }
    }
    None
}

fn count_of(store: &Store, adds: &[(u8, NodeId)], present: &NumSet) -> u8
    requires { AreInside store.now (nodes_of adds.now) }
    ensures { result ≡ count_in store.now present.now adds.now }
{
    for case in adds {
        if store.eval(case.1, present) {
            return case.0;
        }
    }
    0
}

fn denying(alloc: Global, seq: u32, fixing: &Fixing) -> Result<PlainEntry, NoMemory>
    ensures { IfOk result (λ entry. entry ≡ denying seq fixing.now) }
{
    let lists = match_of(alloc, &fixing.present)?;
    Ok(PlainEntry {
        seq,
        permit: false,
        lists,
        lp: None,
        change: None,
        delete: None,
        adds: 0,
        exact: false,
    })
}

/// An entry that deletes and adds communities.
fn adding(
    alloc: Global,
    store: &Store,
    edge: &EdgeFn,
    seq: u32,
    fixing: &Fixing,
    carried: &[u32],
) -> Result<PlainEntry, NoMemory>
    requires edge { IsEdgeForm store.now edge.now }
    requires carried { carried.now ≡ carried_in store.now fixing.now.present edge.now.outs }
    requires permit { value_of store.now fixing.now.present edge.now.permit ≡ true }
    requires kept { value_of store.now fixing.now.present edge.now.rest ≡ true }
    ensures { IfOk result (λ entry. entry ≡ in_made store.now edge.now seq fixing.now) }
{
    let more = not_present(alloc, carried, fixing)?;
    let lists = match_of(alloc, &fixing.present)?;
    let deleted = deleted(alloc, store, edge.outs.as_slice(), fixing)?;
    let delete = deletion_of(alloc, deleted.as_slice())?;
    Ok(PlainEntry {
        seq,
        permit: true,
        lists,
        lp: preference_of(store, edge.lps.as_slice(), &fixing.present),
        change: addition_of(alloc, more),
        delete,
        adds: 0,
        exact: false,
    })
}

/// An entry that replaces all communities.
fn replacing(
    alloc: Global,
    store: &Store,
    edge: &EdgeFn,
    seq: u32,
    fixing: &Fixing,
    carried: Vec<u32>,
) -> Result<PlainEntry, NoMemory>
    requires edge { IsEdgeForm store.now edge.now }
    requires carried { carried.items ≡ carried_in store.now fixing.now.present edge.now.outs }
    requires permit { value_of store.now fixing.now.present edge.now.permit ≡ true }
    requires replaced { value_of store.now fixing.now.present edge.now.rest ≡ false }
    ensures { IfOk result (λ entry. entry ≡ in_made store.now edge.now seq fixing.now) }
{
    let lists = match_of(alloc, &fixing.present)?;
    Ok(PlainEntry {
        seq,
        permit: true,
        lists,
        lp: preference_of(store, edge.lps.as_slice(), &fixing.present),
        change: replacement_by(alloc, carried),
        delete: None,
        adds: 0,
        exact: false,
    })
}

/// The entry of the importer's list.
pub fn in_entry(
    alloc: Global,
    store: &Store,
    edge: &EdgeFn,
    seq: u32,
    fixing: &Fixing,
) -> Result<PlainEntry, NoMemory>
    requires { IsEdgeForm store.now edge.now }
    ensures { IfOk result (λ entry. entry ≡ in_made store.now edge.now seq fixing.now) }
{
    let _known = store.len();
    if !store.eval(edge.permit, &fixing.present) {
        let entry = denying(alloc, seq, fixing)?;
        return Ok(entry);
    }
    let carried = always_carried(alloc, store, edge.outs.as_slice(), &fixing.present)?;
    if store.eval(edge.rest, &fixing.present) {
        adding(alloc, store, edge, seq, fixing, carried.as_slice())
    } else {
        replacing(alloc, store, edge, seq, fixing, carried)
    }
}

/// The entry of the exporter's list.
pub fn out_entry(
    alloc: Global,
    store: &Store,
    edge: &EdgeFn,
    seq: u32,
    fixing: &Fixing,
) -> Result<PlainEntry, NoMemory>
    requires { IsEdgeForm store.now edge.now }
    ensures { IfOk result (λ entry. entry ≡ out_made store.now edge.now seq fixing.now) }
{
    if !store.eval(edge.permit, &fixing.present) {
        return denying(alloc, seq, fixing);
    }
    let lists = match_of(alloc, &fixing.present)?;
    Ok(PlainEntry {
        seq,
        permit: true,
        lists,
        lp: None,
        change: None,
        delete: None,
        adds: count_of(store, edge.adds.as_slice(), &fixing.present),
        exact: false,
    })
}
