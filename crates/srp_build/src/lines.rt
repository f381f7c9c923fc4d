//! A neighbour's line in one direction, and what it names.

ghost use Rattle.std.specs.Prelude.{◌≡◌, IfOk, option_copied};
ghost use Rattle.cfg_ast.specs.meaning.Policy.{name_of};
ghost use Rattle.cfg_ast.specs.meaning.Topology.{neighbors_of};
ghost use Rattle.specialize.specs.Places.{ArePlacesOfRouter};
ghost use Rattle.srp_build.specs.Lines.{map_named, list_named, map_of_line, deny_all, map_at, sends_at, act_of_hop};
ghost use Rattle.srp_build.specs.ListPlaces.{HavePlaces};

use crate::hops::Hop;
use base_kit::{List, NoMemory, Prefix, Text};
use cfg_ast::{Named, Neighbor, Router};
use route_maps::Plain;
use specialize::{Places, policy_at};
use srp_core::Act;
use std::alloc::Global;

/// A line of a router, inbound or outbound.
#[derive(Clone, Copy, Debug, PartialEq, Eq)]
pub struct LinePlace {
    pub router: usize,
    pub item: usize,
    pub inbound: bool,
}

/// The neighbour lines of a router.
pub fn neighbors(router: &Router) -> &[Neighbor]
    ensures { result.now ≡ neighbors_of router.now }
{
    match &router.bgp {
        Some(process) => process.neighbors.as_slice(),
        None => &[],
    }
}

/// The map that a line names, inbound or outbound.
pub fn map_named(inbound: bool, line: &Neighbor) -> &Option<Named>
    ensures { result.now ≡ map_named inbound line.now }
{
    if inbound { &line.map_in } else { &line.map_out }
}

/// The prefix list that a line names, inbound or outbound.
pub fn list_named(inbound: bool, line: &Neighbor) -> &Option<Named>
    ensures { result.now ≡ list_named inbound line.now }
{
    if inbound {
        &line.list_in
    } else {
        &line.list_out
    }
}

fn name_of(named: &Option<Named>) -> Option<&Text>
    ensures { option_copied result ≡ name_of named.now }
{
    match named {
        Some(named) => Some(&named.name),
        None => None,
    }
}

/// The plain map of a line for a prefix, inbound or outbound, by the places of its router's lists and
/// maps.
pub fn map_of_line(
    alloc: Global,
    p: Prefix,
    router: &Router,
    places: &Places,
    inbound: bool,
    line: &Neighbor,
) -> Result<Plain, NoMemory>
    requires { ArePlacesOfRouter router.now places.now }
    ensures { IfOk result (λ plain. plain ≡ map_of_line p router.now inbound line.now) }
{
    let map = name_of(map_named(inbound, line));
    let list = name_of(list_named(inbound, line));
    let plain = policy_at(alloc, router, places, map, list, p, inbound)?;
    Ok(plain)
}

fn closed(alloc: Global) -> Plain
    ensures { result ≡ deny_all }
{
    Plain {
        entries: List::new(alloc),
    }
}

/// The plain map of the line at a place for a prefix, by the places of all routers' lists and maps. Where
/// there is no line, it denies all.
pub fn map_at(
    alloc: Global,
    p: Prefix,
    routers: &[Router],
    places: &[Places],
    line: LinePlace,
) -> Result<Plain, NoMemory>
    requires { HavePlaces routers.now places.now }
    ensures { IfOk result (λ plain. plain ≡ map_at p routers.now line.inbound line.router line.item) }
{
    let Some(router) = routers.get(line.router) else {
        return Ok(closed(alloc));
    };
    let Some(own) = places.get(line.router) else {
        return Ok(closed(alloc));
    };
    let Some(named) = neighbors(router).get(line.item) else {
        return Ok(closed(alloc));
    };
    map_of_line(alloc, p, router, own, line.inbound, named)
}

/// Whether the line at a place of a router sends communities.
pub fn sends_at(routers: &[Router], router: u32, item: u32) -> bool
    ensures { result ≡ sends_at routers.now router item }
{
    let Some(router) = routers.get(router as usize) else {
        return false;
    };
    let Some(line) = neighbors(router).get(item as usize) else {
        return false;
    };
    line.sends
}

/// What the importer takes in a direction: the maps of the lines at both ends.
pub fn act_of_hop(
    alloc: Global,
    p: Prefix,
    routers: &[Router],
    places: &[Places],
    hop: &Hop,
) -> Result<Act, NoMemory>
    requires { HavePlaces routers.now places.now }
    ensures { IfOk result (λ act. act ≡ act_of_hop p routers.now hop.now) }
{
    let from = LinePlace {
        router: hop.exporter as usize,
        item: hop.exporter_item as usize,
        inbound: false,
    };
    let to = LinePlace {
        router: hop.importer as usize,
        item: hop.importer_item as usize,
        inbound: true,
    };
    let out = map_at(alloc, p, routers, places, from)?;
    let sends = sends_at(routers, hop.exporter, hop.exporter_item);
    let into = map_at(alloc, p, routers, places, to)?;
    Ok(Act::Import { out, sends, into })
}
