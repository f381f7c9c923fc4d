//! The BGP process of a group.

ghost use Rattle.std.specs.Prelude.{◌≡◌, ◌<◌, All, map, IfOk};
ghost use Rattle.config_emit.specs.BgpSteps.{announced, neighbor_of};
ghost use Rattle.config_emit.specs.Emitted.{base_of};
ghost use Rattle.config_emit.specs.MapNumbers.{maps_now, ArePolicies};
ghost use Rattle.config_emit.specs.RouterMaps.{use_now, AreUses};

use crate::act_links::ActLink;
use crate::act_maps::{Policies, maps_at};
use crate::as_numbers::number_at;
use crate::link_interfaces::side_on;
use crate::number::link_addr;
use crate::room::list_with_room;
use crate::router_maps::{RouterMaps, far_end, use_name};
use base_kit::{List, NoMemory, Prefix};
use cfg_ast::{Base, Neighbor, NetLine, Router};
use std::alloc::Global;

/// A `network` line for each prefix.
pub(crate) fn net_lines(alloc: Global, prefixes: &[Prefix]) -> Result<List<NetLine>, NoMemory>
    ensures { IfOk result (λ lines. lines ≡ map announced prefixes.now) }
{
    let mut lines = list_with_room(alloc, prefixes.len())?;
    for prefix in prefixes {
        lines.push(NetLine {
            prefix: *prefix,
            line: 0,
        })?;
    }
    Ok(lines)
}

/// The default preference of a router that originates the class, where it is not 100.
pub(crate) fn base_of(nets: &[NetLine], router: &Router) -> Option<Base>
    ensures { result ≡ base_of nets.now router.now }
{
    let value = router.default_preference();
    match nets {
        [] => None,
        _ => {
            if value == 100 {
                None
            } else {
                Some(Base { value, line: 0 })
            }
        }
    }
}

fn neighbor_of(
    alloc: Global,
    policies: &Policies,
    maps: &RouterMaps,
    numbers: &[u32],
    group: u32,
    link: &ActLink,
) -> Result<Neighbor, NoMemory>
    requires policies { ArePolicies policies.now }
    requires places { AreUses maps.now.places (map use_now maps.now.uses.items) }
    requires few { link.now.number < 1048576 }
    ensures { IfOk result (λ n. n ≡ neighbor_of (maps_now policies.now.maps.items) policies.now.acts.now (map use_now maps.now.uses.items) numbers.now group link.now) }
{
    let far = far_end(group, link);
    let here = maps_at(policies, link.act_to(group));
    let there = maps_at(policies, link.act_to(far));
    Ok(Neighbor {
        addr: link_addr(link.number, 1 - side_on(group, link)),
        remote: number_at(numbers, far),
        line: 0,
        shut: false,
        sends: there.sends,
        list_in: None,
        list_out: None,
        map_in: use_name(alloc, maps, here.into)?,
        map_out: use_name(alloc, maps, there.out)?,
    })
}

/// The neighbours of a group with these links.
pub(crate) fn neighbors_of(
    alloc: Global,
    policies: &Policies,
    maps: &RouterMaps,
    numbers: &[u32],
    group: u32,
    links: &[ActLink],
) -> Result<List<Neighbor>, NoMemory>
    requires policies { ArePolicies policies.now }
    requires places { AreUses maps.now.places (map use_now maps.now.uses.items) }
    requires few { All (λ l. l.number < 1048576) links.now }
    ensures { IfOk result (λ ns. ns ≡ map (neighbor_of (maps_now policies.now.maps.items) policies.now.acts.now (map use_now maps.now.uses.items) numbers.now group) links.now) }
{
    let mut neighbors = list_with_room(alloc, links.len())?;
    for link in links {
        neighbors.push(neighbor_of(alloc, policies, maps, numbers, group, link)?)?;
    }
    Ok(neighbors)
}
