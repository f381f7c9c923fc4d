//! The routers of an OSPF network of groups.

ghost use Rattle.std.specs.Prelude.{◌≡◌, ◌<◌, map, IfOk};
ghost use Rattle.std.specs.List.{range_with_len};
ghost use Rattle.base_kit.specs.declared.protocol.Protocol.TheVariants as over;
ghost use Rattle.config_emit.specs.Interfaces.{class_interfaces};
ghost use Rattle.config_emit.specs.Emitted.{emitted_router, area_number};
ghost use Rattle.config_emit.specs.Sources.{plan_of, IsSource, HasLinks};

use crate::class_interfaces::class_interfaces;
use crate::groups::{first_member, name_at};
use crate::link_interfaces::with_link_interfaces;
use crate::links_by_group::{LinksByGroup, links_of};
use crate::ospf::ospf_on;
use crate::room::list_with_room;
use crate::source::{Source, originates, router_at};
use base_kit::{List, NoMemory};
use cfg_ast::{Interface, Router};
use std::alloc::Global;

/// The interfaces of a group in the prefixes of the class.
pub(crate) fn class_interfaces_of(
    alloc: Global,
    source: &Source,
    group: u32,
) -> Result<List<Interface>, NoMemory>
    requires source { IsSource source.now }
    requires inside { group < source.now.count }
    ensures { IfOk result (λ found. found ≡ class_interfaces (plan_of source.now) group) }
{
    let first = first_member(source.groups, group);
    if !originates(source, first) {
        return Ok(List::new(alloc));
    }
    match router_at(source.network.routers.as_slice(), first) {
        Some(router) => {
            let prefixes = source.class.prefixes.as_slice();
            let found = class_interfaces(alloc, source.srp.protocol(), router, prefixes)?;
            Ok(found)
        }
        None => Ok(List::new(alloc)),
    }
}

fn ospf_router(
    alloc: Global,
    source: &Source,
    index: &LinksByGroup,
    area: u32,
    group: u32,
) -> Result<Router, NoMemory>
    requires source { IsSource source.now }
    requires ospf { source.now.srp.now.protocol ≡ over.Ospf }
    requires links { HasLinks (plan_of source.now) index.now }
    requires area { area ≡ area_number (plan_of source.now) }
    requires inside { group < source.now.count }
    ensures { IfOk result (λ router. router ≡ emitted_router (plan_of source.now) group) }
{
    let of_class = class_interfaces_of(alloc, source, group)?;
    let passive = of_class.len();
    let links = links_of(index, group);
    let interfaces = with_link_interfaces(alloc, of_class, source.srp.acts(), group, links)?;
    let all = interfaces.as_slice();
    let ospf = ospf_on(alloc, area, &all[..passive], all)?;
    let first = first_member(source.groups, group);
    Ok(Router {
        name: name_at(alloc, source.srp.names().as_slice(), first)?,
        line: 0,
        interfaces,
        bgp: None,
        ospf,
        prefix_lists: List::new(alloc),
        community_lists: List::new(alloc),
        route_maps: List::new(alloc),
    })
}

/// The routers of an OSPF network, one for each group.
pub(crate) fn ospf_routers(
    alloc: Global,
    source: &Source,
    index: &LinksByGroup,
    area: u32,
) -> Result<List<Router>, NoMemory>
    requires source { IsSource source.now }
    requires ospf { source.now.srp.now.protocol ≡ over.Ospf }
    requires links { HasLinks (plan_of source.now) index.now }
    requires area { area ≡ area_number (plan_of source.now) }
    ensures { IfOk result (λ routers. routers ≡ map (emitted_router (plan_of source.now)) (range_with_len 0 source.now.count)) }
{
    let mut routers = list_with_room(alloc, source.count as usize)?;
    for group in 0..source.count {
        routers.push(ospf_router(alloc, source, index, area, group)?)?;
    }
    Ok(routers)
}
