//! Maps for one prefix, entry by entry.

use base_kit::{List, NoMemory, NumSet, Prefix, Text};
use cfg_ast::{BgpProcess, CommunityLine, CommunityList, MapEntry, NameLine, RouteMap, Router};
use route_maps::{Plain, PlainEntry};
use specialize::{places_of, policy, policy_at, route_map_at};
use std::alloc::Global;

const ONE_ONE: u32 = 65537;

fn text_of(alloc: Global, word: &str) -> Result<Text, NoMemory> {
    Text::copy_of(alloc, word)
}

// `ip community-list standard L permit 1:1`
fn list_l(alloc: Global) -> Result<CommunityList, NoMemory> {
    let mut comms = NumSet::new(alloc);
    comms.add(ONE_ONE)?;
    let mut lines = List::new(alloc);
    lines.push(CommunityLine {
        permit: true,
        comms,
        line: 11,
    })?;
    Ok(CommunityList {
        name: text_of(alloc, "L")?,
        lines,
    })
}

fn entry_of(seq: u32, permit: bool, comms: Option<NameLine>) -> MapEntry {
    MapEntry {
        seq,
        permit,
        line: 12,
        prefixes: None,
        comms,
        exact: false,
        lp: None,
        change: None,
        change_line: 0,
        delete: None,
        prepend: None,
    }
}

// `route-map X deny 10` with `match community L`, and `route-map X permit 20`
fn map_x(alloc: Global) -> Result<RouteMap, NoMemory> {
    let mut names = List::new(alloc);
    names.push(text_of(alloc, "L")?)?;
    let mut entries = List::new(alloc);
    let comms = Some(NameLine { names, line: 13 });
    entries.push(entry_of(10, false, comms))?;
    entries.push(entry_of(20, true, None))?;
    Ok(RouteMap {
        name: text_of(alloc, "X")?,
        entries,
    })
}

// `route-map NAME permit SEQ`
fn map_of_one(alloc: Global, name: &str, seq: u32) -> Result<RouteMap, NoMemory> {
    let mut entries = List::new(alloc);
    entries.push(entry_of(seq, true, None))?;
    Ok(RouteMap {
        name: text_of(alloc, name)?,
        entries,
    })
}

fn router_b(alloc: Global) -> Result<Router, NoMemory> {
    let mut route_maps = List::new(alloc);
    route_maps.push(map_x(alloc)?)?;
    router_with(alloc, route_maps)
}

fn router_with(alloc: Global, route_maps: List<RouteMap>) -> Result<Router, NoMemory> {
    let mut community_lists = List::new(alloc);
    community_lists.push(list_l(alloc)?)?;
    Ok(Router {
        name: text_of(alloc, "b")?,
        line: 1,
        interfaces: List::new(alloc),
        bgp: Some(BgpProcess {
            number: 65002,
            line: 6,
            base: None,
            networks: List::new(alloc),
            neighbors: List::new(alloc),
        }),
        ospf: None,
        prefix_lists: List::new(alloc),
        community_lists,
        route_maps,
    })
}

// Whether an entry has that number, permits or not, and changes nothing.
fn changes_nothing(entry: &PlainEntry, seq: u32, permit: bool) -> bool {
    entry.seq == seq
        && entry.permit == permit
        && entry.lp.is_none()
        && entry.change.is_none()
        && entry.delete.is_none()
        && !entry.exact
        && entry.adds == 0
}

// Whether the lists are one list, with the line of L.
fn are_list_l(lists: &[CommunityList]) -> bool {
    match lists {
        [list] => match list.lines.as_slice() {
            [line] => line.permit && line.comms.as_slice() == [ONE_ONE].as_slice(),
            _ => false,
        },
        _ => false,
    }
}

fn matches_list_l(entry: &PlainEntry) -> bool {
    match &entry.lists {
        Some(lists) => are_list_l(lists.as_slice()),
        None => false,
    }
}

// Whether the map is X, written out.
fn is_map_x(plain: &Plain) -> bool {
    match plain.entries.as_slice() {
        [first, second] => {
            changes_nothing(first, 10, false)
                && matches_list_l(first)
                && changes_nothing(second, 20, true)
                && second.lists.is_none()
        }
        _ => false,
    }
}

fn has_one_entry(plain: &Plain, seq: u32) -> bool {
    match plain.entries.as_slice() {
        [entry] => entry.seq == seq,
        _ => false,
    }
}

fn begins_with(map: &RouteMap, seq: u32) -> bool {
    match map.entries.as_slice() {
        [entry, ..] => entry.seq == seq,
        [] => false,
    }
}

// Whether the map of a name is the one whose only entry has that number, or there is none.
fn is_found(
    alloc: Global,
    router: &Router,
    name: &str,
    seq: Option<u32>,
) -> Result<bool, NoMemory> {
    let places = places_of(alloc, router)?;
    let name = text_of(alloc, name)?;
    let prefix = Prefix::new(0x0A00_0000, 24);
    let plain = policy_at(alloc, router, &places, Some(&name), None, prefix, false)?;
    let is_right = match (route_map_at(router, &places, &name), seq) {
        (Some(map), Some(seq)) => begins_with(map, seq) && has_one_entry(&plain, seq),
        (None, None) => plain.entries.as_slice().is_empty(),
        _ => false,
    };
    Ok(is_right)
}

#[test]
fn a_map_is_written_out_for_a_prefix(rt: HostRuntime) -> Result<(), NoMemory> {
    let alloc = rt.alloc();
    let router = router_b(alloc)?;
    let name = text_of(alloc, "X")?;
    let prefix = Prefix::new(0x0A00_0000, 24);
    let plain = policy(alloc, &router, Some(&name), None, prefix, true)?;
    assert!(rt; is_map_x(&plain));
    Ok(())
}

#[test]
fn the_first_map_of_a_name_is_found(rt: HostRuntime) -> Result<(), NoMemory> {
    let alloc = rt.alloc();
    let mut route_maps = List::new(alloc);
    for (name, seq) in [("Y", 30), ("X", 40), ("Y", 50)] {
        route_maps.push(map_of_one(alloc, name, seq)?)?;
    }
    let router = router_with(alloc, route_maps)?;
    for (name, seq) in [("X", Some(40)), ("Y", Some(30)), ("Z", None)] {
        let is_found = is_found(alloc, &router, name, seq)?;
        assert!(rt; is_found, "{name}");
    }
    Ok(())
}
