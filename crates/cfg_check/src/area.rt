//! Faults of up interfaces in the OSPF area.

ghost use Rattle.std.specs.Prelude.{◌≡◌, IfOk, map, filter_map, flat_map, codes};
ghost use Rattle.std.specs.Option.{option_map};
ghost use Rattle.cfg_ast.specs.meaning.RouterFaults.{address_line, is_wide_loopback, area_addresses_with};
ghost use Rattle.cfg_check.specs.Items.{has_no_cost, area_address_with};
ghost use Rattle.cfg_check.specs.LeastLine.{least_line};

use crate::area_index::AreaIndex;
use crate::least::lesser_line;
use base_kit::NoMemory;
use cfg_ast::{Interface, Router};
use std::alloc::Global;

/// The faults of up interfaces in the area, each by its least `ip address` line.
#[derive(Clone, Copy)]
pub(crate) struct AreaFaults {
    /// A loopback whose mask is not /32.
    pub(crate) wide_loopback: Option<u32>,
    /// An interface that has no cost.
    pub(crate) no_cost: Option<u32>,
}

fn is_wide_loopback(interface: &Interface) -> bool
    ensures { result ≡ is_wide_loopback interface.now }
{
    if interface.type_name() != b"Loopback".as_slice() {
        return false;
    }
    match interface.address {
        Some(address) => address.len() != 32,
        None => true,
    }
}

fn wide_loopback_at(index: &AreaIndex, interface: &Interface) -> Option<u32>
    ensures { result ≡ option_map address_line (area_address_with is_wide_loopback index.now.router.now interface.now) }
{
    if !is_wide_loopback(interface) || !index.has_in_area(interface) {
        return None;
    }
    let address = interface.up_address()?;
    Some(address.line())
}

fn wide_loopback_in(index: &AreaIndex, interfaces: &[Interface]) -> Option<u32>
    ensures { result ≡ least_line (map address_line (filter_map (area_address_with is_wide_loopback index.now.router.now) interfaces.now)) }
{
    let mut least = None;
    for interface in interfaces {
        least = lesser_line(least, wide_loopback_at(index, interface));
    }
    least
}

fn no_cost_at(index: &AreaIndex, interface: &Interface) -> Option<u32>
    ensures { result ≡ option_map address_line (area_address_with has_no_cost index.now.router.now interface.now) }
{
    if !index.has_in_area(interface) || interface.cost().is_some() {
        return None;
    }
    let address = interface.up_address()?;
    Some(address.line())
}

fn no_cost_in(index: &AreaIndex, interfaces: &[Interface]) -> Option<u32>
    ensures { result ≡ least_line (map address_line (filter_map (area_address_with has_no_cost index.now.router.now) interfaces.now)) }
{
    let mut least = None;
    for interface in interfaces {
        least = lesser_line(least, no_cost_at(index, interface));
    }
    least
}

fn area_faults_of(alloc: Global, router: &Router) -> Result<AreaFaults, NoMemory>
    ensures wide_loopback { IfOk result (λ faults. faults.wide_loopback ≡ least_line (map address_line (area_addresses_with is_wide_loopback router.now))) }
    ensures no_cost { IfOk result (λ faults. faults.no_cost ≡ least_line (map address_line (area_addresses_with has_no_cost router.now))) }
{
    let index = AreaIndex::of(alloc, router)?;
    let interfaces = router.interfaces.as_slice();
    Ok(AreaFaults {
        wide_loopback: wide_loopback_in(&index, interfaces),
        no_cost: no_cost_in(&index, interfaces),
    })
}

/// The faults of all routers' interfaces in the area.
pub(crate) fn area_faults(alloc: Global, routers: &[Router]) -> Result<AreaFaults, NoMemory>
    ensures wide_loopback { IfOk result (λ faults. faults.wide_loopback ≡ least_line (map address_line (flat_map (area_addresses_with is_wide_loopback) routers.now))) }
    ensures no_cost { IfOk result (λ faults. faults.no_cost ≡ least_line (map address_line (flat_map (area_addresses_with has_no_cost) routers.now))) }
{
    let mut wide_loopback = None;
    let mut no_cost = None;
    for router in routers {
        let faults = area_faults_of(alloc, router)?;
        wide_loopback = lesser_line(wide_loopback, faults.wide_loopback);
        no_cost = lesser_line(no_cost, faults.no_cost);
    }
    Ok(AreaFaults {
        wide_loopback,
        no_cost,
    })
}
