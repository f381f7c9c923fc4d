//! The canonical lists of a function.

ghost use Rattle.std.specs.Prelude.{◌≡◌, ◌≤◌, ℕ, List as Items, Option, IfOk, OnOk, ◌++◌, length, true, false};
ghost use Rattle.std.specs.List.{list_any};
ghost use Rattle.dd_core.specs.Sets.{Grows};
ghost use Rattle.route_maps.specs.declared.plain.Imported.{Imported};
ghost use Rattle.route_maps.specs.Maps.{import_of};
ghost use Rattle.policy_dd.specs.Imports.{AreOneImport};
ghost use Rattle.policy_dd.specs.Edge.{IsEdgeFn, keys_of, by_number};
ghost use Rattle.canon_policy.specs.Canonical.{out_asked, numbered_from, line_is_wide, match_is_wide, names_in_change, is_wide, without_last_denies, limited, in_list, out_list, passing, canonical_lists_of};
ghost use Rattle.canon_policy.specs.Fixings.{nothing_fixed, split, settled};
ghost use Rattle.canon_policy.specs.Functions.{on_sets};
ghost use Rattle.canon_policy.specs.Made.{IsEdgeForm, asked_of, carried_nodes, in_nodes, out_nodes, in_made, out_made, has_no_count, EndsInDeny, IsListOf, AreListsOf};
ghost use Rattle.canon_policy.specs.CanonicalProblem.{AreCommunities};
ghost use Rattle.canon_policy.specs.Plain.{IsPlain};
ghost use Rattle.canon_policy.specs.Printed.{HasSmallNumbers, ArePrintable};

use crate::entries::{in_entry, out_entry};
use crate::fixing::Fixing;
use crate::lists::{CanonEdge, CanonRefusal};
use crate::others::{depends_on_others, push_counts, push_lps};
use crate::parts::{Nodes, PartNodes};
use crate::walk::{MOST_ENTRIES, MOST_NAMES, settled_fixings};
use base_kit::{Community, List, NoMemory};
use cfg_ast::{Change, CommunityLine, CommunityList};
use dd_core::{NodeId, Store};
use policy_dd::EdgeFn;
use route_maps::{Plain, PlainEntry};
use std::alloc::Global;

fn push_carried(parts: &mut List<PartNodes>, outs: &[(Community, NodeId)]) -> Result<(), NoMemory>
    ensures { OnOk result (parts.new ≡ parts.old ++ carried_nodes outs.now) }
{
    for case in outs {
        parts.push(PartNodes::Carried(case.0, case.1))?;
    }
    Ok(())
}

/// The nodes for the importer's list: acceptance, whether communities that no line names are kept, the
/// preference, and each community.
fn in_nodes(alloc: Global, edge: &EdgeFn) -> Result<Nodes, NoMemory>
    ensures { IfOk result (λ nodes. nodes ≡ in_nodes edge.now) }
{
    let mut kept = List::new(alloc);
    kept.push(edge.rest)?;
    let mut lps = List::new(alloc);
    push_lps(&mut lps, edge.lps.as_slice())?;
    let mut parts = List::new(alloc);
    parts.push(PartNodes::Told(kept))?;
    parts.push(PartNodes::Told(lps))?;
    push_carried(&mut parts, edge.outs.as_slice())?;
    Ok(Nodes {
        permit: edge.permit,
        rest: edge.rest,
        parts,
    })
}

/// The nodes for the exporter's list: acceptance and the count.
fn out_nodes(alloc: Global, edge: &EdgeFn) -> Result<Nodes, NoMemory>
    ensures { IfOk result (λ nodes. nodes ≡ out_nodes edge.now) }
{
    let mut counts = List::new(alloc);
    push_counts(&mut counts, edge.adds.as_slice())?;
    let mut parts = List::new(alloc);
    parts.push(PartNodes::Told(counts))?;
    Ok(Nodes {
        permit: edge.permit,
        rest: edge.rest,
        parts,
    })
}

fn in_entries(
    alloc: Global,
    store: &Store,
    edge: &EdgeFn,
    settled: &[Fixing],
) -> Result<List<PlainEntry>, NoMemory>
    requires edge { IsEdgeForm store.now edge.now }
    requires few { length settled.now ≤ 65535 }
    ensures { IfOk result (λ entries. entries ≡ numbered_from 1 (in_made store.now edge.now) settled.now) }
{
    let mut entries = List::new(alloc);
    for (place, fixing) in settled.iter().enumerate() {
        let entry = in_entry(alloc, store, edge, place as u32 + 1, fixing)?;
        entries.push(entry)?;
    }
    Ok(entries)
}

fn out_entries(
    alloc: Global,
    store: &Store,
    edge: &EdgeFn,
    settled: &[Fixing],
) -> Result<List<PlainEntry>, NoMemory>
    requires edge { IsEdgeForm store.now edge.now }
    requires few { length settled.now ≤ 65535 }
    ensures { IfOk result (λ entries. entries ≡ numbered_from 1 (out_made store.now edge.now) settled.now) }
{
    let mut entries = List::new(alloc);
    for (place, fixing) in settled.iter().enumerate() {
        let entry = out_entry(alloc, store, edge, place as u32 + 1, fixing)?;
        entries.push(entry)?;
    }
    Ok(entries)
}

fn line_is_wide(line: &CommunityLine) -> bool
    ensures { result ≡ line_is_wide line.now }
{
    line.comms.as_slice().len() > MOST_NAMES
}

fn match_is_wide(list: &CommunityList) -> bool
    ensures { result ≡ match_is_wide list.now }
{
    list.lines.as_slice().iter().any(|line| line_is_wide(line))
}

fn any_match_is_wide(lists: &[CommunityList]) -> bool
    ensures { result ≡ list_any match_is_wide lists.now }
{
    lists.iter().any(|list| match_is_wide(list))
}

fn names_in_change(change: &Option<Change>) -> usize
    ensures { result ≡ names_in_change change.now }
{
    match change {
        None => 0,
        Some(Change::Clear) => 0,
        Some(Change::Replace(by)) => by.as_slice().len(),
        Some(Change::Append(more)) => more.as_slice().len(),
    }
}

/// Whether the entry names more communities than a line holds.
fn is_wide(entry: &PlainEntry) -> bool
    ensures { result ≡ is_wide entry.now }
{
    let wide = names_in_change(&entry.change) > MOST_NAMES;
    match &entry.lists {
        None => wide,
        Some(lists) => {
            if any_match_is_wide(lists.as_slice()) {
                return true;
            }
            wide
        }
    }
}

/// The entries without those that deny at the end.
fn without_last_denies(mut entries: List<PlainEntry>) -> List<PlainEntry>
    ensures { result ≡ without_last_denies entries }
{
    while ends_in_deny(&entries) {
        let _deny = entries.remove(entries.len() - 1);
    }
    entries
}

fn ends_in_deny(entries: &List<PlainEntry>) -> bool
    ensures { EndsInDeny entries.now result }
{
    match entries.as_slice().last() {
        None => false,
        Some(entry) => !entry.permit,
    }
}

fn any_is_wide(entries: &[PlainEntry]) -> bool
    ensures { result ≡ list_any is_wide entries.now }
{
    entries.iter().any(|entry| is_wide(entry))
}

/// The list of these entries, unless there are too many or one is wide.
fn limited(entries: List<PlainEntry>) -> Option<Plain>
    ensures { result ≡ limited entries }
{
    if entries.len() > MOST_ENTRIES {
        return None;
    }
    if any_is_wide(entries.as_slice()) {
        return None;
    }
    Some(Plain {
        entries: without_last_denies(entries),
    })
}

/// The importer's list, made from its settled fixings, if there is one.
fn in_list_of(
    alloc: Global,
    store: &Store,
    edge: &EdgeFn,
    fixings: &[Fixing],
) -> Result<Option<Plain>, NoMemory>
    requires { IsEdgeForm store.now edge.now }
    ensures { (f : Items ℕ → Option Imported) → IsEdgeFn store.now edge.now f → IsPlain store.now.universe (on_sets f) → fixings.now ≡ settled (length store.now.universe) (split store.now.universe (asked_of store.now.universe (on_sets f) (keys_of (by_number edge.now.outs)))) nothing_fixed → IfOk result (λ list. list ≡ in_list store.now.universe (on_sets f)) }
{
    let _known = store.len();
    if fixings.len() > MOST_ENTRIES {
        return Ok(None);
    }
    let entries = in_entries(alloc, store, edge, fixings)?;
    Ok(limited(entries))
}

/// The exporter's list of a function with some count above 0, made from its settled fixings, if there is
/// one.
fn out_list_of(
    alloc: Global,
    store: &Store,
    edge: &EdgeFn,
    fixings: &[Fixing],
) -> Result<Option<Plain>, NoMemory>
    requires { IsEdgeForm store.now edge.now }
    ensures { (f : Items ℕ → Option Imported) → IsEdgeFn store.now edge.now f → IsPlain store.now.universe (on_sets f) → has_no_count edge.now.adds ≡ false → fixings.now ≡ settled (length store.now.universe) (split store.now.universe (out_asked store.now.universe (on_sets f))) nothing_fixed → IfOk result (λ list. list ≡ out_list store.now.universe (on_sets f)) }
{
    let _known = store.len();
    if fixings.len() > MOST_ENTRIES {
        return Ok(None);
    }
    let entries = out_entries(alloc, store, edge, fixings)?;
    Ok(limited(entries))
}

/// The importer's list.
fn in_list(alloc: Global, store: &mut Store, edge: &EdgeFn) -> Result<Plain, CanonRefusal>
    requires { IsEdgeForm store.old edge.now }
    ensures grows { Grows store.old store.new }
    ensures list { (f : Items ℕ → Option Imported) → IsEdgeFn store.old edge.now f → IsPlain store.old.universe (on_sets f) → IsListOf result (in_list store.old.universe (on_sets f)) }
{
    let _known = store.len();
    let nodes = in_nodes(alloc, edge)?;
    match settled_fixings(alloc, store, &nodes) {
        Err(refusal) => Err(refusal),
        Ok(fixings) => match in_list_of(alloc, store, edge, fixings.as_slice())? {
            None => Err(CanonRefusal::NoCanon),
            Some(list) => Ok(list),
        },
    }
}

/// A map that passes every route as it is.
fn passing(alloc: Global) -> Result<Plain, NoMemory>
    ensures { IfOk result (λ map. map ≡ passing) }
{
    let mut entries = List::new(alloc);
    entries.push(PlainEntry {
        seq: 10,
        permit: true,
        lists: None,
        lp: None,
        change: None,
        delete: None,
        adds: 0,
        exact: false,
    })?;
    Ok(Plain { entries })
}

fn adds_nothing(adds: &[(u8, NodeId)]) -> bool
    ensures { result ≡ has_no_count adds.now }
{
    adds.iter().all(|case| case.0 == 0)
}

/// The exporter's list.
fn out_list(alloc: Global, store: &mut Store, edge: &EdgeFn) -> Result<Plain, CanonRefusal>
    requires { IsEdgeForm store.old edge.now }
    ensures grows { Grows store.old store.new }
    ensures list { (f : Items ℕ → Option Imported) → IsEdgeFn store.old edge.now f → IsPlain store.old.universe (on_sets f) → IsListOf result (out_list store.old.universe (on_sets f)) }
{
    let _known = store.len();
    let counts = edge.adds.as_slice();
    if adds_nothing(counts) {
        let map = passing(alloc)?;
        return Ok(map);
    }
    let nodes = out_nodes(alloc, edge)?;
    match settled_fixings(alloc, store, &nodes) {
        Err(refusal) => Err(refusal),
        Ok(fixings) => match out_list_of(alloc, store, edge, fixings.as_slice())? {
            None => Err(CanonRefusal::NoCanon),
            Some(list) => Ok(list),
        },
    }
}

/// The canonical lists of the function of a session, whose nodes have the form that `edge_fn` makes. The
/// lists import every set of communities as the function does. They can be printed if lines can hold the
/// preferences and counts of the function.
pub fn canon(alloc: Global, store: &mut Store, edge: &EdgeFn) -> Result<CanonEdge, CanonRefusal>
    requires { IsEdgeForm store.old edge.now }
    ensures grows { Grows store.old store.new }
    ensures canonical { (f : Items ℕ → Option Imported) → IsEdgeFn store.old edge.now f → AreListsOf result (canonical_lists_of store.old.universe f) }
    ensures imports { (f : Items ℕ → Option Imported) → IsEdgeFn store.old edge.now f → IfOk result (λ lists. AreOneImport (import_of lists.out true lists.into) f) }
    ensures printable { (f : Items ℕ → Option Imported) → IsEdgeFn store.old edge.now f → AreCommunities store.old.universe → HasSmallNumbers f → IfOk result (λ lists. ArePrintable store.old.universe lists) }
{
    let _known = store.len();
    let depends = depends_on_others(alloc, store, edge)?;
    if depends {
        return Err(CanonRefusal::NoCanon);
    }
    match in_list(alloc, store, edge) {
        Err(refusal) => Err(refusal),
        Ok(into) => match out_list(alloc, store, edge) {
            Err(refused) => Err(refused),
            Ok(out) => Ok(CanonEdge { out, into }),
        },
    }
}
