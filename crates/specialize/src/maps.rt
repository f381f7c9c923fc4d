//! A route map for one prefix.

ghost use Rattle.std.specs.Prelude.{◌≡◌, ℕ, [], ◌∷◌, IfOk, OnOk, option_copied, min, filter_map, if◌then◌else◌};
ghost use Rattle.std.specs.Option.{option_or};
ghost use Rattle.cfg_ast.specs.meaning.Policy.{community_list_named, prefixes_permitted_by, prefixes_match, deletion_list, prepend_count, passes_list};
ghost use Rattle.route_maps.specs.Printable.{IsPrintable};
ghost use Rattle.specialize.specs.OnePrefix.{MapPrependsFew, own_preference, lists_named, plain_entry, whole_entry, plain_entries, entries_for, plain_of, KeepsVerdict};
ghost use Rattle.specialize.specs.Answers.{AreAnswers};
ghost use Rattle.specialize.specs.Places.{ArePlacesOfRouter};
ghost use Rattle.specialize.specs.Printable.{HasPrintableMaps};

use crate::answers::{KnownAnswers, any_list_permits};
use crate::places::{Places, find_community_list, find_prefix_list, places_of, route_map_at};
use base_kit::{List, NoMemory, Prefix, Text};
use cfg_ast::{CommunityList, MapEntry, NameLine, Named, Prepend, Router};
use prefix_lists::permits;
use route_maps::{Plain, PlainEntry, change_copy, list_copy};
use std::alloc::Global;
use std::collections::HashMap;

fn list_permits(router: &Router, places: &Places, p: Prefix, name: &Text) -> bool
    requires { ArePlacesOfRouter router.now places.now }
    ensures { result ≡ prefixes_permitted_by router.now p name.now }
{
    match find_prefix_list(router, places, name) {
        Some(list) => permits(list, p),
        None => false,
    }
}

fn prefixes_match(
    known: &mut KnownAnswers,
    router: &Router,
    places: &Places,
    p: Prefix,
    prefixes: &Option<NameLine>,
) -> Result<bool, NoMemory>
    requires places { ArePlacesOfRouter router.now places.now }
    requires known { AreAnswers router.now p known.old }
    ensures answer { IfOk result (λ answer. answer ≡ prefixes_match router.now p prefixes.now) }
    ensures known { OnOk result (AreAnswers router.now p known.new) }
{
    match prefixes {
        Some(line) => any_list_permits(known, router, places, p, line.names.as_slice()),
        None => Ok(true),
    }
}

fn own_preference(router: &Router, inbound: bool) -> Option<u32>
    ensures { result ≡ own_preference router.now inbound }
{
    let preference = router.default_preference();
    if inbound && preference != 100 {
        Some(preference)
    } else {
        None
    }
}

fn copies_named(
    alloc: Global,
    router: &Router,
    places: &Places,
    names: &[Text],
) -> Result<List<CommunityList>, NoMemory>
    requires { ArePlacesOfRouter router.now places.now }
    ensures { IfOk result (λ lists. lists ≡ filter_map (community_list_named router.now) names.now) }
{
    let mut lists = List::new(alloc);
    for name in names {
        if let Some(list) = find_community_list(router, places, name) {
            lists.push(list_copy(alloc, list)?)?;
        }
    }
    Ok(lists)
}

fn lists_named(
    alloc: Global,
    router: &Router,
    places: &Places,
    comms: &Option<NameLine>,
) -> Result<Option<List<CommunityList>>, NoMemory>
    requires { ArePlacesOfRouter router.now places.now }
    ensures { IfOk result (λ lists. lists ≡ lists_named router.now comms.now) }
{
    match comms {
        Some(line) => Ok(Some(copies_named(alloc, router, places, line.names.as_slice())?)),
        None => Ok(None),
    }
}

fn deletion_list(
    alloc: Global,
    router: &Router,
    places: &Places,
    delete: &Option<Named>,
) -> Result<Option<CommunityList>, NoMemory>
    requires { ArePlacesOfRouter router.now places.now }
    ensures { IfOk result (λ list. list ≡ deletion_list router.now delete.now) }
{
    match delete {
        Some(named) => match find_community_list(router, places, &named.name) {
            Some(list) => Ok(Some(list_copy(alloc, list)?)),
            None => Ok(None),
        },
        None => Ok(None),
    }
}

fn count_of(prepend: &Option<Prepend>) -> u8
    ensures { result ≡ min (prepend_count prepend.now) 255 }
{
    match prepend {
        Some(line) => line.numbers.len().min(255) as u8,
        None => 0,
    }
}

fn preference(entry: &MapEntry, own: Option<u32>) -> Option<u32>
    ensures { result ≡ (if entry.now.permit then option_or entry.now.lp own else entry.now.lp) }
{
    if entry.permit {
        entry.lp.or(own)
    } else {
        entry.lp
    }
}

fn plain_entry(
    alloc: Global,
    router: &Router,
    places: &Places,
    own: Option<u32>,
    entry: &MapEntry,
) -> Result<PlainEntry, NoMemory>
    requires { ArePlacesOfRouter router.now places.now }
    ensures { IfOk result (λ plain. plain ≡ plain_entry router.now own entry.now) }
{
    Ok(PlainEntry {
        seq: entry.seq,
        permit: entry.permit,
        lists: lists_named(alloc, router, places, &entry.comms)?,
        lp: preference(entry, own),
        change: change_copy(&entry.change)?,
        delete: deletion_list(alloc, router, places, &entry.delete)?,
        adds: count_of(&entry.prepend),
        exact: entry.exact,
    })
}

fn plain_entries(
    alloc: Global,
    router: &Router,
    places: &Places,
    own: Option<u32>,
    p: Prefix,
    entries: &[MapEntry],
) -> Result<List<PlainEntry>, NoMemory>
    requires { ArePlacesOfRouter router.now places.now }
    ensures { IfOk result (λ plain. plain ≡ plain_entries router.now own p entries.now) }
{
    let mut known = HashMap::new(alloc);
    let mut plain = List::new(alloc);
    for entry in entries {
        let matches = prefixes_match(&mut known, router, places, p, &entry.prefixes)?;
        if matches {
            plain.push(plain_entry(alloc, router, places, own, entry)?)?;
        }
    }
    Ok(plain)
}

fn whole(alloc: Global, own: Option<u32>) -> Result<List<PlainEntry>, NoMemory>
    ensures { IfOk result (λ plain. plain ≡ whole_entry own ∷ []) }
{
    let mut plain = List::new(alloc);
    plain.push(PlainEntry {
        seq: 10,
        permit: true,
        lists: None,
        lp: own,
        change: None,
        delete: None,
        adds: 0,
        exact: false,
    })?;
    Ok(plain)
}

fn entries_for(
    alloc: Global,
    router: &Router,
    places: &Places,
    own: Option<u32>,
    p: Prefix,
    map: Option<&Text>,
) -> Result<List<PlainEntry>, NoMemory>
    requires { ArePlacesOfRouter router.now places.now }
    ensures { IfOk result (λ plain. plain ≡ entries_for router.now own p (option_copied map.entry)) }
{
    match map {
        Some(name) => match route_map_at(router, places, name) {
            Some(map) => plain_entries(alloc, router, places, own, p, map.entries.as_slice()),
            None => Ok(List::new(alloc)),
        },
        None => whole(alloc, own),
    }
}

fn passes_list(router: &Router, places: &Places, p: Prefix, list: Option<&Text>) -> bool
    requires { ArePlacesOfRouter router.now places.now }
    ensures { result ≡ passes_list router.now p (option_copied list.entry) }
{
    match list {
        Some(name) => list_permits(router, places, p, name),
        None => true,
    }
}

fn map_for(
    alloc: Global,
    router: &Router,
    places: &Places,
    map: Option<&Text>,
    list: Option<&Text>,
    p: Prefix,
    inbound: bool,
) -> Result<Plain, NoMemory>
    requires { ArePlacesOfRouter router.now places.now }
    ensures { IfOk result (λ plain. plain ≡ plain_of router.now (option_copied map.entry) (option_copied list.entry) p inbound) }
{
    if !passes_list(router, places, p, list) {
        return Ok(Plain {
            entries: List::new(alloc),
        });
    }
    let own = own_preference(router, inbound);
    let entries = entries_for(alloc, router, places, own, p, map)?;
    Ok(Plain { entries })
}

/// The map of a router for one prefix, after a prefix list, inbound or outbound. Without a map all
/// passes as it is; a map or list that the router does not define denies, and a deletion list that it
/// does not define deletes nothing. Inbound, a permit without a preference gets the router's default
/// one, if it is not 100. The verdict is kept where each entry of the map prepends at most 255 numbers,
/// which the grammar bounds by 10.
pub fn policy(
    alloc: Global,
    router: &Router,
    map: Option<&Text>,
    list: Option<&Text>,
    p: Prefix,
    inbound: bool,
) -> Result<Plain, NoMemory>
    ensures plain { IfOk result (λ plain. plain ≡ plain_of router.now (option_copied map.entry) (option_copied list.entry) p inbound) }
    ensures printable { HasPrintableMaps router.now → IfOk result IsPrintable }
    ensures verdict { MapPrependsFew router.now (option_copied map.entry) → IfOk result (KeepsVerdict router.now (option_copied map.entry) (option_copied list.entry) p inbound) }
{
    let places = places_of(alloc, router)?;
    policy_at(alloc, router, &places, map, list, p, inbound)
}

/// `policy` with the places of the router's lists and maps, which serve for any number of calls.
pub fn policy_at(
    alloc: Global,
    router: &Router,
    places: &Places,
    map: Option<&Text>,
    list: Option<&Text>,
    p: Prefix,
    inbound: bool,
) -> Result<Plain, NoMemory>
    requires { ArePlacesOfRouter router.now places.now }
    ensures plain { IfOk result (λ plain. plain ≡ plain_of router.now (option_copied map.entry) (option_copied list.entry) p inbound) }
    ensures printable { HasPrintableMaps router.now → IfOk result IsPrintable }
    ensures verdict { MapPrependsFew router.now (option_copied map.entry) → IfOk result (KeepsVerdict router.now (option_copied map.entry) (option_copied list.entry) p inbound) }
{
    let plain = map_for(alloc, router, places, map, list, p, inbound)?;
    Ok(plain)
}
