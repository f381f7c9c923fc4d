//! Interfaces in the prefixes that a group originates.

ghost use Rattle.std.specs.Prelude.{◌≡◌, ◌++◌, IfOk, OnOk, filter_map};
ghost use Rattle.std.specs.List.{enumerate_from};
ghost use Rattle.config_emit.specs.Interfaces.{class_interfaces_on, cost_over};
ghost use Rattle.config_emit.specs.Spots.{counts, AreSpots, PutsSpot, interface_at, served_at, OriginatesEach};

use crate::number::numbered;
use base_kit::{List, NoMemory, Prefix, Protocol};
use cfg_ast::{Address, Interface, Router};
use cfg_check::AreaIndex;
use number_hashing::{NumberDigest, NumberHashing};
use std::alloc::Global;
use std::collections::HashMap;

/// The address of an interface and the length of its mask, and in OSPF its cost.
#[derive(Clone, Copy, Debug, PartialEq, Eq)]
pub(crate) struct Spot {
    pub(crate) address: Address,
    pub(crate) cost: Option<u16>,
}

type SpotsBySubnet = HashMap<(u32, u8), Spot, NumberHashing>;

fn cost_over(protocol: Protocol, interface: &Interface) -> Option<u16>
    ensures { result ≡ cost_over protocol interface.now }
{
    match protocol {
        Protocol::Bgp => None,
        Protocol::Ospf => interface.cost(),
    }
}

fn counts(protocol: Protocol, index: &AreaIndex, interface: &Interface) -> bool
    ensures { result ≡ counts protocol index.now.router.now interface.now }
{
    match protocol {
        Protocol::Bgp => true,
        Protocol::Ospf => index.has_in_area(interface),
    }
}

// Puts an interface at its subnet, if it counts and none stands there yet.
fn put_spot(
    spots: &mut SpotsBySubnet,
    protocol: Protocol,
    index: &AreaIndex,
    interface: &Interface,
) -> Result<(), NoMemory>
    ensures { OnOk result (PutsSpot protocol index.now.router.now spots.old spots.new interface.now) }
{
    if !counts(protocol, index, interface) {
        return Ok(());
    }
    let Some(address) = interface.up_address() else {
        return Ok(());
    };
    let subnet = address.subnet();
    let key = (subnet.addr(), subnet.len());
    if spots.contains_key(&key) {
        return Ok(());
    }
    spots.insert(
        key,
        Spot {
            address,
            cost: cost_over(protocol, interface),
        },
    )?;
    Ok(())
}

// The hash for a table of the subnets.
fn hashing_of(interfaces: &[Interface]) -> NumberHashing {
    let mut numbers = NumberDigest::for_count(interfaces.len());
    for interface in interfaces {
        if let Some(address) = interface.up_address() {
            numbers.add_pair(address.addr(), u32::from(address.len()));
        }
    }
    numbers.hashing()
}

fn spots_of(
    alloc: Global,
    protocol: Protocol,
    index: &AreaIndex,
    interfaces: &[Interface],
) -> Result<SpotsBySubnet, NoMemory>
    ensures { IfOk result (λ spots. AreSpots protocol index.now.router.now spots interfaces.now) }
{
    let mut spots: SpotsBySubnet = HashMap::with_hasher(alloc, hashing_of(interfaces));
    for interface in interfaces {
        put_spot(&mut spots, protocol, index, interface)?;
    }
    Ok(spots)
}

fn interface_at(alloc: Global, number: usize, spot: &Spot) -> Result<Interface, NoMemory>
    ensures { IfOk result (λ x. x ≡ interface_at number spot.now) }
{
    let address = Address::new(spot.address.addr(), spot.address.len(), 0);
    Ok(Interface {
        name: numbered(alloc, "Vlan", number)?,
        line: 0,
        address: Some(address),
        cost: spot.cost,
        shut: false,
    })
}

fn served_at(
    alloc: Global,
    spots: &SpotsBySubnet,
    number: usize,
    prefix: Prefix,
) -> Result<Option<Interface>, NoMemory>
    ensures { IfOk result (λ x. x ≡ served_at spots.now (number, prefix)) }
{
    match spots.get(&(prefix.addr(), prefix.len())) {
        Some(spot) => Ok(Some(interface_at(alloc, number, spot)?)),
        None => Ok(None),
    }
}

fn push_interfaces(
    alloc: Global,
    found: &mut List<Interface>,
    spots: &SpotsBySubnet,
    prefixes: &[Prefix],
) -> Result<(), NoMemory>
    ensures { OnOk result (found.new ≡ found.old ++ filter_map (served_at spots.now) (enumerate_from 1 prefixes.now)) }
{
    for i in 0..prefixes.len() {
        if let Some(interface) = served_at(alloc, spots, i + 1, prefixes[i])? {
            found.push(interface)?;
        }
    }
    Ok(())
}

/// The interfaces of a router in the prefixes of a class that it originates.
pub(crate) fn class_interfaces(
    alloc: Global,
    protocol: Protocol,
    router: &Router,
    prefixes: &[Prefix],
) -> Result<List<Interface>, NoMemory>
    requires { OriginatesEach router.now prefixes.now }
    ensures { IfOk result (λ found. found ≡ class_interfaces_on protocol prefixes.now router.now) }
{
    let index = AreaIndex::of(alloc, router)?;
    let spots = spots_of(alloc, protocol, &index, router.interfaces.as_slice())?;
    let mut found = List::new(alloc);
    push_interfaces(alloc, &mut found, &spots, prefixes)?;
    Ok(found)
}
