//! Interfaces on the links of a group.

ghost use Rattle.std.specs.Prelude.{◌≡◌, ◌<◌, ◌++◌, All, map, IfOk};
ghost use Rattle.std.specs.List.{enumerate_from};
ghost use Rattle.std.specs.Option.{option_and_then, option_map};
ghost use Rattle.config_emit.specs.Interfaces.{cost_by};
ghost use Rattle.config_emit.specs.ActLinks.{act_to};
ghost use Rattle.config_emit.specs.LinkSteps.{act_by, side_on, interface_of_link};

use crate::act_links::ActLink;
use crate::number::{link_addr, numbered};
use base_kit::{List, NoMemory};
use cfg_ast::{Address, Interface};
use srp_core::Act;
use std::alloc::Global;

fn cost_by(acts: &[Act], place: u32) -> Option<u16>
    ensures { result ≡ cost_by (act_by acts.now place) }
{
    match acts.get(place as usize) {
        Some(Act::Import { .. }) => None,
        Some(Act::Cost(cost)) => Some(*cost),
        None => Some(0),
    }
}

fn cost_into(acts: &[Act], group: u32, link: &ActLink) -> Option<u16>
    ensures { result ≡ option_and_then cost_by (option_map (act_by acts.now) (act_to group link.now)) }
{
    match link.act_to(group) {
        Some(place) => cost_by(acts, place),
        None => None,
    }
}

/// 0 at the low end of a link, 1 at the high one.
pub(crate) fn side_on(group: u32, link: &ActLink) -> u8
    ensures { result ≡ side_on group link.now }
{
    if link.low == group { 0 } else { 1 }
}

fn interface_of_link(
    alloc: Global,
    acts: &[Act],
    group: u32,
    number: usize,
    link: &ActLink,
) -> Result<Interface, NoMemory>
    requires { link.now.number < 1048576 }
    ensures { IfOk result (λ x. x ≡ interface_of_link acts.now group (number, link.now)) }
{
    let addr = link_addr(link.number, side_on(group, link));
    Ok(Interface {
        name: numbered(alloc, "GigabitEthernet0/", number)?,
        line: 0,
        address: Some(Address::new(addr, 31, 0)),
        cost: cost_into(acts, group, link),
        shut: false,
    })
}

/// The interfaces and behind them those of the links of a group, numbered from 1.
pub(crate) fn with_link_interfaces(
    alloc: Global,
    interfaces: List<Interface>,
    acts: &[Act],
    group: u32,
    links: &[ActLink],
) -> Result<List<Interface>, NoMemory>
    requires { All (λ l. l.number < 1048576) links.now }
    ensures { IfOk result (λ all. all ≡ interfaces ++ map (interface_of_link acts.now group) (enumerate_from 1 links.now)) }
{
    let mut all = interfaces.into_vec();
    all.reserve_exact(links.len())?;
    for i in 0..links.len() {
        all.push(interface_of_link(alloc, acts, group, i + 1, &links[i])?)?;
    }
    Ok(List::from_vec(all))
}
