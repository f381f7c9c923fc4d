//! Lists and maps that a line names and its router does not define.

ghost use Rattle.std.specs.Prelude.{◌≡◌, ◌++◌, IfOk, flat_map};
ghost use Rattle.std.specs.List.{list_any};
ghost use Rattle.cfg_ast.specs.meaning.PolicyFaults.{line_naming, match_line_naming, map_lines_naming, list_lines_naming, entry_lines_naming, lines_in_map_naming, undefined_maps_of, undefined_lists_of};
ghost use Rattle.cfg_check.specs.LeastLine.{least_line};
ghost use Rattle.cfg_check.specs.NameSets.{lacks_name};

use crate::least::lesser_line;
use crate::limits::neighbors;
use crate::name_sets::{community_list_names, map_names, prefix_list_names};
use base_kit::{NoMemory, Text};
use cfg_ast::{MapEntry, NameLine, Named, Neighbor, RouteMap, Router};
use numbered_names::NameSet;
use std::alloc::Global;

// The line, if it gives a name that is not in the set.
fn line_lacking(names: &NameSet<'_>, named: &Option<Named>) -> Option<u32>
    ensures { result ≡ least_line (line_naming (lacks_name names.now) named.now) }
{
    let Some(named) = named else { return None };
    if names.contains(named.name.as_str()) {
        return None;
    }
    Some(named.line)
}

fn lacks_one(names: &NameSet<'_>, all: &[Text]) -> bool
    ensures { result ≡ list_any (lacks_name names.now) all.now }
{
    all.iter().any(|name| !names.contains(name.as_str()))
}

// The match line, if it gives a name that is not in the set.
fn match_line_lacking(names: &NameSet<'_>, line: &Option<NameLine>) -> Option<u32>
    ensures { result ≡ least_line (match_line_naming (lacks_name names.now) line.now) }
{
    let Some(line) = line else { return None };
    if !lacks_one(names, line.names.as_slice()) {
        return None;
    }
    Some(line.line)
}

fn undefined_maps_at(names: &NameSet<'_>, neighbor: &Neighbor) -> Option<u32>
    ensures { result ≡ least_line (map_lines_naming (lacks_name names.now) neighbor.now) }
{
    let line_in = line_lacking(names, &neighbor.map_in);
    let line_out = line_lacking(names, &neighbor.map_out);
    lesser_line(line_in, line_out)
}

fn undefined_maps_in(names: &NameSet<'_>, neighbors: &[Neighbor]) -> Option<u32>
    ensures { result ≡ least_line (flat_map (map_lines_naming (lacks_name names.now)) neighbors.now) }
{
    let mut least = None;
    for neighbor in neighbors {
        least = lesser_line(least, undefined_maps_at(names, neighbor));
    }
    least
}

fn undefined_maps_of(alloc: Global, router: &Router) -> Result<Option<u32>, NoMemory>
    ensures { IfOk result (λ line. line ≡ least_line (undefined_maps_of router.now)) }
{
    let names = map_names(alloc, router.route_maps.as_slice())?;
    Ok(undefined_maps_in(&names, neighbors(router)))
}

/// The least line that names a route map which its router does not define.
pub(crate) fn undefined_map(alloc: Global, routers: &[Router]) -> Result<Option<u32>, NoMemory>
    ensures { IfOk result (λ line. line ≡ least_line (flat_map undefined_maps_of routers.now)) }
{
    let mut least = None;
    for router in routers {
        least = lesser_line(least, undefined_maps_of(alloc, router)?);
    }
    Ok(least)
}

fn undefined_lists_at(names: &NameSet<'_>, neighbor: &Neighbor) -> Option<u32>
    ensures { result ≡ least_line (list_lines_naming (lacks_name names.now) neighbor.now) }
{
    let line_in = line_lacking(names, &neighbor.list_in);
    let line_out = line_lacking(names, &neighbor.list_out);
    lesser_line(line_in, line_out)
}

fn undefined_lists_by_neighbors(names: &NameSet<'_>, neighbors: &[Neighbor]) -> Option<u32>
    ensures { result ≡ least_line (flat_map (list_lines_naming (lacks_name names.now)) neighbors.now) }
{
    let mut least = None;
    for neighbor in neighbors {
        least = lesser_line(least, undefined_lists_at(names, neighbor));
    }
    least
}

fn undefined_lists_in_entry(
    prefixes: &NameSet<'_>,
    comms: &NameSet<'_>,
    entry: &MapEntry,
) -> Option<u32>
    ensures { result ≡ least_line (entry_lines_naming (lacks_name prefixes.now) (lacks_name comms.now) entry.now) }
{
    let by_prefixes = match_line_lacking(prefixes, &entry.prefixes);
    let by_comms = match_line_lacking(comms, &entry.comms);
    let by_delete = line_lacking(comms, &entry.delete);
    lesser_line(lesser_line(by_prefixes, by_comms), by_delete)
}

fn undefined_lists_in_map(
    prefixes: &NameSet<'_>,
    comms: &NameSet<'_>,
    map: &RouteMap,
) -> Option<u32>
    ensures { result ≡ least_line (lines_in_map_naming (lacks_name prefixes.now) (lacks_name comms.now) map.now) }
{
    let mut least = None;
    for entry in map.entries.as_slice() {
        least = lesser_line(least, undefined_lists_in_entry(prefixes, comms, entry));
    }
    least
}

fn undefined_lists_by_maps(
    prefixes: &NameSet<'_>,
    comms: &NameSet<'_>,
    maps: &[RouteMap],
) -> Option<u32>
    ensures { result ≡ least_line (flat_map (lines_in_map_naming (lacks_name prefixes.now) (lacks_name comms.now)) maps.now) }
{
    let mut least = None;
    for map in maps {
        least = lesser_line(least, undefined_lists_in_map(prefixes, comms, map));
    }
    least
}

fn undefined_lists_of(alloc: Global, router: &Router) -> Result<Option<u32>, NoMemory>
    ensures { IfOk result (λ line. line ≡ least_line (undefined_lists_of router.now)) }
{
    let prefixes = prefix_list_names(alloc, router.prefix_lists.as_slice())?;
    let comms = community_list_names(alloc, router.community_lists.as_slice())?;
    let by_neighbors = undefined_lists_by_neighbors(&prefixes, neighbors(router));
    let by_maps = undefined_lists_by_maps(&prefixes, &comms, router.route_maps.as_slice());
    Ok(lesser_line(by_neighbors, by_maps))
}

/// The least line that names a prefix list or community list which its router does not define.
pub(crate) fn undefined_list(alloc: Global, routers: &[Router]) -> Result<Option<u32>, NoMemory>
    ensures { IfOk result (λ line. line ≡ least_line (flat_map undefined_lists_of routers.now)) }
{
    let mut least = None;
    for router in routers {
        least = lesser_line(least, undefined_lists_of(alloc, router)?);
    }
    Ok(least)
}
