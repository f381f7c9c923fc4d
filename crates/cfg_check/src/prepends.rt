//! Prepended AS numbers, and the maps that may have them.

ghost use Rattle.std.specs.Prelude.{◌≡◌, IfOk, flat_map};
ghost use Rattle.std.specs.List.{list_all};
ghost use Rattle.cfg_ast.specs.meaning.Topology.{has_number};
ghost use Rattle.cfg_ast.specs.meaning.PolicyFaults.{line_naming, foreign_prepends_in_map, foreign_prepends_of, prepending_maps_in_of};
ghost use Rattle.cfg_check.specs.Items.{map_in_naming, foreign_prepend_in};
ghost use Rattle.cfg_check.specs.LeastLine.{least_line};
ghost use Rattle.numbered_names.specs.NameSets.{has_name};

use crate::least::lesser_line;
use crate::limits::neighbors;
use crate::name_sets::prepending_names;
use base_kit::NoMemory;
use cfg_ast::{MapEntry, Named, Neighbor, RouteMap, Router};
use numbered_names::NameSet;
use std::alloc::Global;

fn has_number(router: &Router, number: u32) -> bool
    ensures { result ≡ has_number router.now number }
{
    match &router.bgp {
        Some(process) => process.number == number,
        None => false,
    }
}

fn has_all_numbers(router: &Router, numbers: &[u32]) -> bool
    ensures { result ≡ list_all (has_number router.now) numbers.now }
{
    numbers.iter().all(|number| has_number(router, *number))
}

fn foreign_prepend_in(router: &Router, entry: &MapEntry) -> Option<u32>
    ensures { result ≡ least_line (foreign_prepend_in router.now entry.now) }
{
    let Some(prepend) = &entry.prepend else {
        return None;
    };
    if has_all_numbers(router, prepend.numbers.as_slice()) {
        return None;
    }
    Some(prepend.line)
}

fn foreign_prepends_in_map(router: &Router, map: &RouteMap) -> Option<u32>
    ensures { result ≡ least_line (foreign_prepends_in_map router.now map.now) }
{
    let mut least = None;
    for entry in map.entries.as_slice() {
        least = lesser_line(least, foreign_prepend_in(router, entry));
    }
    least
}

fn foreign_prepends_of(router: &Router) -> Option<u32>
    ensures { result ≡ least_line (foreign_prepends_of router.now) }
{
    let mut least = None;
    for map in router.route_maps.as_slice() {
        least = lesser_line(least, foreign_prepends_in_map(router, map));
    }
    least
}

/// The least `set as-path prepend` line with a number that is not the AS number of its router.
pub(crate) fn prepend_form(routers: &[Router]) -> Option<u32>
    ensures { result ≡ least_line (flat_map foreign_prepends_of routers.now) }
{
    let mut least = None;
    for router in routers {
        least = lesser_line(least, foreign_prepends_of(router));
    }
    least
}

// The line, if it gives a name that is in the set.
fn line_having(names: &NameSet<'_>, named: &Option<Named>) -> Option<u32>
    ensures { result ≡ least_line (line_naming (has_name names.now) named.now) }
{
    let Some(named) = named else { return None };
    if !names.contains(named.name.as_str()) {
        return None;
    }
    Some(named.line)
}

fn prepending_maps_in(names: &NameSet<'_>, neighbors: &[Neighbor]) -> Option<u32>
    ensures { result ≡ least_line (flat_map (map_in_naming (has_name names.now)) neighbors.now) }
{
    let mut least = None;
    for neighbor in neighbors {
        least = lesser_line(least, line_having(names, &neighbor.map_in));
    }
    least
}

fn prepending_maps_in_of(alloc: Global, router: &Router) -> Result<Option<u32>, NoMemory>
    ensures { IfOk result (λ line. line ≡ least_line (prepending_maps_in_of router.now)) }
{
    let names = prepending_names(alloc, router.route_maps.as_slice())?;
    Ok(prepending_maps_in(&names, neighbors(router)))
}

/// The least line that gives a neighbour an in map with an entry that prepends.
pub(crate) fn prepend_in(alloc: Global, routers: &[Router]) -> Result<Option<u32>, NoMemory>
    ensures { IfOk result (λ line. line ≡ least_line (flat_map prepending_maps_in_of routers.now)) }
{
    let mut least = None;
    for router in routers {
        least = lesser_line(least, prepending_maps_in_of(alloc, router)?);
    }
    Ok(least)
}
