//! The names of a router's lists and maps, as sets.

ghost use Rattle.std.specs.Prelude.{◌≡◌, ◌||◌, ◌&&◌, IfOk, OnOk, bytes_eq};
ghost use Rattle.std.specs.List.{list_any};
ghost use Rattle.cfg_ast.specs.meaning.PolicyFaults.{is_name, is_deleted_in, prepends_in_map};
ghost use Rattle.cfg_ast.specs.declared.policy.CommunityList.{CommunityList};
ghost use Rattle.cfg_ast.specs.declared.policy.MapEntry.{MapEntry};
ghost use Rattle.cfg_ast.specs.declared.policy.PrefixList.{PrefixList};
ghost use Rattle.cfg_ast.specs.declared.policy.RouteMap.{RouteMap};
ghost use Rattle.cfg_check.specs.NameSets.{HasNames, AddsNames};

use base_kit::NoMemory;
use cfg_ast::{CommunityList, MapEntry, PrefixList, RouteMap};
use numbered_names::{NameDigest, NameHashing, NameSet};
use std::alloc::Global;

/// The names of the route maps.
pub(crate) fn map_names(alloc: Global, maps: &[RouteMap]) -> Result<NameSet<'_>, NoMemory>
    ensures { IfOk result (λ names. HasNames names (λ q. list_any (λ (map : RouteMap). bytes_eq q map.name) maps.now)) }
{
    let mut names = NameSet::new(alloc, NameHashing::of(maps));
    for map in maps {
        names.insert(map.name.as_str())?;
    }
    Ok(names)
}

/// The names of the prefix lists.
pub(crate) fn prefix_list_names(
    alloc: Global,
    lists: &[PrefixList],
) -> Result<NameSet<'_>, NoMemory>
    ensures { IfOk result (λ names. HasNames names (λ q. list_any (λ (list : PrefixList). bytes_eq q list.name) lists.now)) }
{
    let mut names = NameSet::new(alloc, NameHashing::of(lists));
    for list in lists {
        names.insert(list.name.as_str())?;
    }
    Ok(names)
}

/// The names of the community lists.
pub(crate) fn community_list_names(
    alloc: Global,
    lists: &[CommunityList],
) -> Result<NameSet<'_>, NoMemory>
    ensures { IfOk result (λ names. HasNames names (λ q. list_any (λ (list : CommunityList). bytes_eq q list.name) lists.now)) }
{
    let mut names = NameSet::new(alloc, NameHashing::of(lists));
    for list in lists {
        names.insert(list.name.as_str())?;
    }
    Ok(names)
}

// Puts in the name of the list that the entry deletes by.
fn keep_deletion<'a>(names: &mut NameSet<'a>, entry: &'a MapEntry) -> Result<(), NoMemory>
    ensures { OnOk result (AddsNames names.old names.new (λ q. is_name q entry.now.delete)) }
{
    let Some(named) = &entry.delete else {
        return Ok(());
    };
    names.insert(named.name.as_str())?;
    Ok(())
}

fn keep_deletions<'a>(names: &mut NameSet<'a>, entries: &'a [MapEntry]) -> Result<(), NoMemory>
    ensures { OnOk result (AddsNames names.old names.new (λ q. list_any (λ (entry : MapEntry). is_name q entry.delete) entries.now)) }
{
    for entry in entries {
        keep_deletion(names, entry)?;
    }
    Ok(())
}

// How the names of the lists that entries delete by are hashed.
fn hashing_of_deletions(maps: &[RouteMap]) -> NameHashing {
    let mut names = NameDigest::new();
    for map in maps {
        for entry in map.entries.as_slice() {
            if let Some(named) = &entry.delete {
                names.add(named.name.as_str().as_bytes());
            }
        }
    }
    names.hashing()
}

/// The names of the lists that some `set comm-list` line names.
pub(crate) fn deleted_names(alloc: Global, maps: &[RouteMap]) -> Result<NameSet<'_>, NoMemory>
    ensures { IfOk result (λ names. HasNames names (λ q. list_any (is_deleted_in q) maps.now)) }
{
    let mut names = NameSet::new(alloc, hashing_of_deletions(maps));
    for map in maps {
        keep_deletions(&mut names, map.entries.as_slice())?;
    }
    Ok(names)
}

fn prepends(map: &RouteMap) -> bool
    ensures { result ≡ prepends_in_map map.now }
{
    map.entries
        .as_slice()
        .iter()
        .any(|entry| entry.prepend.is_some())
}

// Puts in the name of the map if some entry of it prepends.
fn keep_if_prepending<'a>(names: &mut NameSet<'a>, map: &'a RouteMap) -> Result<(), NoMemory>
    ensures { OnOk result (AddsNames names.old names.new (λ q. prepends_in_map map.now && bytes_eq q map.now.name)) }
{
    if !prepends(map) {
        return Ok(());
    }
    names.insert(map.name.as_str())?;
    Ok(())
}

/// The names of the route maps in which some entry has `set as-path prepend`.
pub(crate) fn prepending_names(alloc: Global, maps: &[RouteMap]) -> Result<NameSet<'_>, NoMemory>
    ensures { IfOk result (λ names. HasNames names (λ q. list_any (λ (map : RouteMap). prepends_in_map map && bytes_eq q map.name) maps.now)) }
{
    let mut names = NameSet::new(alloc, NameHashing::of(maps));
    for map in maps {
        keep_if_prepending(&mut names, map)?;
    }
    Ok(names)
}
