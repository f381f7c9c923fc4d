//! The maps of all policies of lines for a prefix.

ghost use Rattle.std.specs.Prelude.{◌≡◌, IfOk};
ghost use Rattle.srp_build.specs.LineMaps.{AreMapsOfPolicies, map_number_at, with_maps};
ghost use Rattle.srp_build.specs.ListPlaces.{HavePlaces};

use crate::imports::{ImportByMaps, ImportByPolicies};
use crate::lines::{LinePlace, map_at};
use crate::plains::Plains;
use base_kit::{NoMemory, Prefix};
use cfg_ast::Router;
use route_maps::Plain;
use specialize::Places;
use std::alloc::Global;

/// The plain maps of all policies of lines for a prefix: each map once, and for each policy the number
/// of its map.
#[derive(Drop)]
pub struct PolicyMaps {
    pub maps: Vec<Plain>,
    pub numbers: Vec<usize>,
}

/// The maps of the policies with these first lines for a prefix.
pub fn policy_maps(
    alloc: Global,
    p: Prefix,
    routers: &[Router],
    places: &[Places],
    firsts: &[LinePlace],
) -> Result<PolicyMaps, NoMemory>
    requires { HavePlaces routers.now places.now }
    ensures { IfOk result (λ found. AreMapsOfPolicies p routers.now firsts.now found.maps.items found.numbers.items) }
{
    let mut plains = Plains::new(alloc);
    let mut numbers = Vec::new(alloc);
    for first in firsts {
        let map = map_at(alloc, p, routers, places, *first)?;
        numbers.push(plains.number(alloc, map)?)?;
    }
    Ok(PolicyMaps {
        maps: plains.maps,
        numbers,
    })
}

fn number_of(numbers: &[usize], policy: usize) -> usize
    ensures { result ≡ map_number_at numbers.now policy }
{
    match numbers.get(policy) {
        Some(number) => *number,
        None => 0,
    }
}

/// An import by the numbers of its maps, from that by the numbers of the policies of its lines.
pub fn with_maps(numbers: &[usize], import: &ImportByPolicies) -> ImportByMaps
    ensures { result ≡ with_maps numbers.now import.now }
{
    ImportByMaps {
        out: number_of(numbers, import.out),
        sends: import.sends,
        into: number_of(numbers, import.into),
    }
}
