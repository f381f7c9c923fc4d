//! The OSPF process of a group.

ghost use Rattle.std.specs.Prelude.{◌≡◌, map, filter_map, IfOk};
ghost use Rattle.config_emit.specs.Emitted.{host_area_line, interface_name, ospf_on};

use crate::room::list_with_room;
use base_kit::{List, NoMemory, Text};
use cfg_ast::{AreaLine, Interface, OspfProcess};
use std::alloc::Global;

fn area_line(area: u32, interface: &Interface) -> Option<AreaLine>
    ensures { result ≡ host_area_line area interface.now }
{
    match &interface.address {
        Some(address) => Some(AreaLine {
            addr: address.addr(),
            wild: 0,
            area,
            line: 0,
        }),
        None => None,
    }
}

fn area_lines(
    alloc: Global,
    area: u32,
    interfaces: &[Interface],
) -> Result<List<AreaLine>, NoMemory>
    ensures { IfOk result (λ lines. lines ≡ filter_map (host_area_line area) interfaces.now) }
{
    let mut lines = list_with_room(alloc, interfaces.len())?;
    for interface in interfaces {
        if let Some(line) = area_line(area, interface) {
            lines.push(line)?;
        }
    }
    Ok(lines)
}

fn names_of(alloc: Global, interfaces: &[Interface]) -> Result<List<Text>, NoMemory>
    ensures { IfOk result (λ names. names ≡ map interface_name interfaces.now) }
{
    let mut names = list_with_room(alloc, interfaces.len())?;
    for interface in interfaces {
        names.push(Text::copy_of(alloc, interface.name.as_str())?)?;
    }
    Ok(names)
}

/// The OSPF process of a router with these interfaces in the area. Those of the class are passive.
pub(crate) fn ospf_on(
    alloc: Global,
    area: u32,
    class: &[Interface],
    interfaces: &[Interface],
) -> Result<Option<OspfProcess>, NoMemory>
    ensures { IfOk result (λ process. process ≡ ospf_on area class.now interfaces.now) }
{
    if interfaces.is_empty() {
        return Ok(None);
    }
    Ok(Some(OspfProcess {
        number: 1,
        line: 0,
        passive_default: false,
        passive: names_of(alloc, class)?,
        not_passive: List::new(alloc),
        areas: area_lines(alloc, area, interfaces)?,
    }))
}
