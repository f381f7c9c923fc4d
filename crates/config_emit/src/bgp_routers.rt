//! The routers of a BGP network of groups.

ghost use Rattle.std.specs.Prelude.{◌≡◌, ◌<◌, map, flat_map, IfOk};
ghost use Rattle.std.specs.List.{enumerate_from, range_with_len};
ghost use Rattle.base_kit.specs.declared.protocol.Protocol.TheVariants as over;
ghost use Rattle.srp_quotient.specs.Groups.{number_of_group};
ghost use Rattle.config_emit.specs.ActLinks.{act_link};
ghost use Rattle.config_emit.specs.Emitted.{net_lines, written_base, written_bgp, emitted_router};
ghost use Rattle.config_emit.specs.GroupMaps.{ArePlanned, AreGroupMaps, plains_now};
ghost use Rattle.config_emit.specs.Interfaces.{links_at};
ghost use Rattle.config_emit.specs.Maps.{lists_of_map, written_map};
ghost use Rattle.config_emit.specs.Sources.{plan_of, IsSource, HasLinks, HasGroupNumbers, AreLinksOf};

use crate::act_links::ActLink;
use crate::act_maps::Policies;
use crate::as_numbers::number_at;
use crate::bgp::{base_of, neighbors_of, net_lines};
use crate::groups::{first_member, name_at};
use crate::link_interfaces::with_link_interfaces;
use crate::links_by_group::{LinksByGroup, links_of};
use crate::room::list_with_room;
use crate::router_maps::{RouterMaps, router_maps};
use crate::routers::class_interfaces_of;
use crate::source::{Source, originates, router_at};
use crate::written::{push_lists_of_map, written_map};
use base_kit::{List, NoMemory};
use cfg_ast::{Base, BgpProcess, CommunityList, NetLine, RouteMap, Router};
use std::alloc::Global;

fn net_lines_of(alloc: Global, source: &Source, group: u32) -> Result<List<NetLine>, NoMemory>
    requires source { IsSource source.now }
    requires inside { group < source.now.count }
    ensures { IfOk result (λ lines. lines ≡ net_lines (plan_of source.now) group) }
{
    let first = first_member(source.groups, group);
    if !originates(source, first) {
        return Ok(List::new(alloc));
    }
    match router_at(source.network.routers.as_slice(), first) {
        Some(_router) => {
            let lines = net_lines(alloc, source.class.prefixes.as_slice())?;
            Ok(lines)
        }
        None => Ok(List::new(alloc)),
    }
}

fn base_line(source: &Source, group: u32, nets: &[NetLine]) -> Option<Base>
    requires source { IsSource source.now }
    requires inside { group < source.now.count }
    requires nets { nets.now ≡ net_lines (plan_of source.now) group }
    ensures { result ≡ written_base (plan_of source.now) group }
{
    let first = first_member(source.groups, group);
    match router_at(source.network.routers.as_slice(), first) {
        Some(router) => base_of(nets, router),
        None => None,
    }
}

fn process(
    alloc: Global,
    source: &Source,
    policies: &Policies,
    maps: &RouterMaps,
    numbers: &[u32],
    group: u32,
    links: &[ActLink],
) -> Result<Option<BgpProcess>, NoMemory>
    requires source { IsSource source.now }
    requires bgp { source.now.srp.now.protocol ≡ over.Bgp }
    requires policies { ArePlanned (plan_of source.now) policies.now }
    requires maps { AreGroupMaps (plan_of source.now) group policies.now maps.now }
    requires numbers { HasGroupNumbers (plan_of source.now) numbers.now }
    requires links { AreLinksOf (plan_of source.now) group links.now }
    requires inside { group < source.now.count }
    ensures { IfOk result (λ process. process ≡ written_bgp over.Bgp (plan_of source.now) group) }
{
    let number = number_at(numbers, group);
    if number == 0 {
        return Ok(None);
    }
    let networks = net_lines_of(alloc, source, group)?;
    let base = base_line(source, group, networks.as_slice());
    let neighbors = neighbors_of(alloc, policies, maps, numbers, group, links)?;
    Ok(Some(BgpProcess {
        number,
        line: 0,
        base,
        networks,
        neighbors,
    }))
}

fn lists_of(alloc: Global, maps: &RouterMaps) -> Result<List<CommunityList>, NoMemory>
    ensures { IfOk result (λ lists. lists ≡ flat_map lists_of_map (enumerate_from 1 (plains_now maps.now.uses.items))) }
{
    let mut lists = List::new(alloc);
    let uses = maps.uses.as_slice();
    for i in 0..uses.len() {
        push_lists_of_map(alloc, &mut lists, i + 1, uses[i].plain)?;
    }
    Ok(lists)
}

fn maps_of(alloc: Global, number: u32, maps: &RouterMaps) -> Result<List<RouteMap>, NoMemory>
    ensures { IfOk result (λ found. found ≡ map (written_map number) (enumerate_from 1 (plains_now maps.now.uses.items))) }
{
    let mut found = List::new(alloc);
    let uses = maps.uses.as_slice();
    for i in 0..uses.len() {
        found.push(written_map(alloc, number, i + 1, uses[i].plain)?)?;
    }
    Ok(found)
}

fn maps_of_group<'a>(
    alloc: Global,
    source: &Source,
    policies: &Policies<'a>,
    group: u32,
    links: &[ActLink],
) -> Result<RouterMaps<'a>, NoMemory>
    requires bgp { source.now.srp.now.protocol ≡ over.Bgp }
    requires policies { ArePlanned (plan_of source.now) policies.now }
    requires links { AreLinksOf (plan_of source.now) group links.now }
    ensures { IfOk result (AreGroupMaps (plan_of source.now) group policies.now) }
{
    let maps = router_maps(alloc, policies, group, links)?;
    Ok(maps)
}

fn bgp_router(
    alloc: Global,
    source: &Source,
    index: &LinksByGroup,
    policies: &Policies,
    numbers: &[u32],
    group: u32,
) -> Result<Router, NoMemory>
    requires source { IsSource source.now }
    requires bgp { source.now.srp.now.protocol ≡ over.Bgp }
    requires links { HasLinks (plan_of source.now) index.now }
    requires policies { ArePlanned (plan_of source.now) policies.now }
    requires numbers { HasGroupNumbers (plan_of source.now) numbers.now }
    requires inside { group < source.now.count }
    ensures { IfOk result (λ router. router ≡ emitted_router (plan_of source.now) group) }
{
    let of_class = class_interfaces_of(alloc, source, group)?;
    let links = links_of(index, group);
    let interfaces = with_link_interfaces(alloc, of_class, source.srp.acts(), group, links)?;
    let maps = maps_of_group(alloc, source, policies, group, links)?;
    let bgp = process(alloc, source, policies, &maps, numbers, group, links)?;
    let community_lists = lists_of(alloc, &maps)?;
    let route_maps = maps_of(alloc, number_at(numbers, group), &maps)?;
    let first = first_member(source.groups, group);
    Ok(Router {
        name: name_at(alloc, source.srp.names().as_slice(), first)?,
        line: 0,
        interfaces,
        bgp,
        ospf: None,
        prefix_lists: List::new(alloc),
        community_lists,
        route_maps,
    })
}

/// The routers of a BGP network, one for each group.
pub(crate) fn bgp_routers(
    alloc: Global,
    source: &Source,
    index: &LinksByGroup,
    policies: &Policies,
    numbers: &[u32],
) -> Result<List<Router>, NoMemory>
    requires source { IsSource source.now }
    requires bgp { source.now.srp.now.protocol ≡ over.Bgp }
    requires links { HasLinks (plan_of source.now) index.now }
    requires policies { ArePlanned (plan_of source.now) policies.now }
    requires numbers { HasGroupNumbers (plan_of source.now) numbers.now }
    ensures { IfOk result (λ routers. routers ≡ map (emitted_router (plan_of source.now)) (range_with_len 0 source.now.count)) }
{
    let mut routers = list_with_room(alloc, source.count as usize)?;
    for group in 0..source.count {
        routers.push(bgp_router(alloc, source, index, policies, numbers, group)?)?;
    }
    Ok(routers)
}
