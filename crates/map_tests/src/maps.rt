//! Maps over sets of communities.

use base_kit::{List, NoMemory, NumSet, Text};
use cfg_ast::{Change, CommunityLine, CommunityList};
use route_maps::{Plain, PlainEntry, Verdict, apply, import, map_copy, same_map};
use std::alloc::Global;

const ONE_ONE: u32 = 65537;

const TWO_TWO: u32 = 131074;

const THREE_THREE: u32 = 196611;

fn set_of(alloc: Global, comms: &[u32]) -> Result<NumSet, NoMemory> {
    let mut set = NumSet::new(alloc);
    for c in comms {
        set.add(*c)?;
    }
    Ok(set)
}

fn permitting(alloc: Global, community: u32) -> Result<CommunityList, NoMemory> {
    let mut lines = List::new(alloc);
    lines.push(CommunityLine {
        permit: true,
        comms: set_of(alloc, &[community])?,
        line: 1,
    })?;
    Ok(CommunityList {
        name: Text::new(alloc),
        lines,
    })
}

// `permit 10`, which matches and sets nothing
fn empty_entry() -> PlainEntry {
    PlainEntry {
        seq: 10,
        permit: true,
        lists: None,
        lp: None,
        change: None,
        delete: None,
        adds: 0,
        exact: false,
    }
}

fn map_of(alloc: Global, entry: PlainEntry) -> Result<Plain, NoMemory> {
    let mut entries = List::new(alloc);
    entries.push(entry)?;
    Ok(Plain { entries })
}

// It matches 1:1, prefers by 200 and adds 2:2.
fn preferring(alloc: Global) -> Result<Plain, NoMemory> {
    let mut lists = List::new(alloc);
    lists.push(permitting(alloc, ONE_ONE)?)?;
    let entry = PlainEntry {
        lists: Some(lists),
        lp: Some(200),
        change: Some(Change::Append(set_of(alloc, &[TWO_TWO])?)),
        ..empty_entry()
    };
    map_of(alloc, entry)
}

#[test]
fn a_map_sets_what_it_matches(rt: HostRuntime) -> Result<(), NoMemory> {
    let alloc = rt.alloc();
    let map = preferring(alloc)?;
    match apply(alloc, &map, &set_of(alloc, &[ONE_ONE])?)? {
        Verdict::Permit { lp, comms, adds } => {
            assert_eq!(rt; lp, Some(200));
            assert_eq!(rt; comms.as_slice(), [ONE_ONE, TWO_TWO].as_slice());
            assert_eq!(rt; adds, 0);
        }
        Verdict::Deny => assert!(rt; false, "denied"),
    }
    match apply(alloc, &map, &NumSet::new(alloc))? {
        Verdict::Permit { .. } => assert!(rt; false, "permitted"),
        Verdict::Deny => {}
    }
    Ok(())
}

#[test]
fn communities_are_imported_where_they_are_sent(rt: HostRuntime) -> Result<(), NoMemory> {
    let alloc = rt.alloc();
    let out = map_of(alloc, empty_entry())?;
    let into = preferring(alloc)?;
    let comms = set_of(alloc, &[ONE_ONE])?;
    match import(alloc, &out, true, &into, &comms)? {
        Some(imported) => {
            assert_eq!(rt; imported.lp, 200);
            assert_eq!(rt; imported.comms.as_slice(), [ONE_ONE, TWO_TWO].as_slice());
            assert_eq!(rt; imported.adds, 0);
        }
        None => assert!(rt; false, "not imported"),
    }
    match import(alloc, &out, false, &into, &comms)? {
        Some(_) => assert!(rt; false, "imported"),
        None => {}
    }
    Ok(())
}

#[test]
fn deletion_comes_before_the_change(rt: HostRuntime) -> Result<(), NoMemory> {
    let alloc = rt.alloc();
    let entry = PlainEntry {
        change: Some(Change::Append(set_of(alloc, &[TWO_TWO])?)),
        delete: Some(permitting(alloc, ONE_ONE)?),
        ..empty_entry()
    };
    let map = map_of(alloc, entry)?;
    match apply(alloc, &map, &set_of(alloc, &[ONE_ONE, THREE_THREE])?)? {
        Verdict::Permit { comms, .. } => {
            assert_eq!(rt; comms.as_slice(), [TWO_TWO, THREE_THREE].as_slice());
        }
        Verdict::Deny => assert!(rt; false, "denied"),
    }
    Ok(())
}

#[test]
fn maps_are_the_same_but_for_names(rt: HostRuntime) -> Result<(), NoMemory> {
    let alloc = rt.alloc();
    let map = preferring(alloc)?;
    assert!(rt; same_map(&map, &map_copy(alloc, &map)?));
    let mut lists = List::new(alloc);
    lists.push(CommunityList {
        name: Text::copy_of(alloc, "other")?,
        ..permitting(alloc, ONE_ONE)?
    })?;
    let renamed = PlainEntry {
        lists: Some(lists),
        lp: Some(200),
        change: Some(Change::Append(set_of(alloc, &[TWO_TWO])?)),
        ..empty_entry()
    };
    assert!(rt; same_map(&map, &map_of(alloc, renamed)?));
    assert!(rt; !same_map(&map, &map_of(alloc, empty_entry())?));
    Ok(())
}
