//! OSPF adjacencies.

ghost use Rattle.std.specs.Prelude.{◌≡◌, ◌<◌, ◌^◌, ◌++◌, map, filter, filter_map, flat_map, length, IfOk, OnOk};
ghost use Rattle.std.specs.List.{enumerate_from};
ghost use Rattle.cfg_ast.specs.meaning.Topology.{place_on, adjacencies_of};
ghost use Rattle.net_topology.specs.Spots.{spot_on, spot_of, spots, spot_link, is_later, pair_of, links_in};
ghost use Rattle.buckets.specs.Buckets.{IsIndex};
ghost use Rattle.net_topology.specs.FewPlaces.{HasFewItems, HasFewPlaces};

use crate::places::place;
use base_kit::{List, NoMemory};
use buckets::{Index, items_at, push_at};
use cfg_ast::{Interface, Link, Network, Router};
use cfg_check::AreaIndex;
use number_hashing::{NumberDigest, NumberHashing};
use std::alloc::Global;
use std::collections::HashMap;

/// An active interface by its place, with the length and the first address of its subnet.
#[derive(Clone, Copy)]
pub(crate) struct Spot {
    pub(crate) router: u32,
    pub(crate) item: u32,
    pub(crate) len: u32,
    pub(crate) first: u32,
}

fn spot_at(router: u32, item: u32, index: &AreaIndex, interface: &Interface) -> Option<Spot>
    ensures { result ≡ spot_on router item index.now.router.now interface.now }
{
    let address = index.active_address(interface)?;
    let subnet = address.subnet();
    Some(Spot {
        router,
        item,
        len: u32::from(subnet.len()),
        first: subnet.addr(),
    })
}

fn push_spots_in(
    found: &mut Vec<Spot>,
    router: u32,
    index: &AreaIndex,
    interfaces: &[Interface],
) -> Result<(), NoMemory>
    requires { length interfaces.now < 2 ^ 32 }
    ensures { OnOk result (found.new.items ≡ found.old.items ++ filter_map spot_of (map (place_on router index.now.router.now) (enumerate_from 0 interfaces.now))) }
{
    for i in 0..interfaces.len() {
        let item = place(i);
        if let Some(spot) = spot_at(router, item, index, &interfaces[i]) {
            found.push(spot)?;
        }
    }
    Ok(())
}

fn push_spots(
    alloc: Global,
    found: &mut Vec<Spot>,
    router: u32,
    owner: &Router,
) -> Result<(), NoMemory>
    requires { HasFewItems owner.now }
    ensures { OnOk result (found.new.items ≡ found.old.items ++ filter_map spot_of (map (place_on router owner.now) (enumerate_from 0 owner.now.interfaces))) }
{
    let index = AreaIndex::of(alloc, owner)?;
    push_spots_in(found, router, &index, owner.interfaces.as_slice())
}

fn spots(alloc: Global, network: &Network) -> Result<Vec<Spot>, NoMemory>
    requires { HasFewPlaces network.now.routers }
    ensures { IfOk result (λ found. found.items ≡ spots network.now) }
{
    let mut found = Vec::new(alloc);
    let routers = network.routers.as_slice();
    for r in 0..routers.len() {
        let router = place(r);
        push_spots(alloc, &mut found, router, &routers[r])?;
    }
    Ok(found)
}

// The hash for a table of the subnets.
fn hashing_of(spots: &[Spot]) -> NumberHashing {
    let mut numbers = NumberDigest::for_count(spots.len());
    for spot in spots {
        numbers.add_pair(spot.len, spot.first);
    }
    numbers.hashing()
}

// The spots of each subnet, in order.
fn by_subnet(alloc: Global, spots: &[Spot]) -> Result<Index<Spot>, NoMemory>
    ensures { IfOk result (λ index. IsIndex pair_of index spots.now) }
{
    let mut index: Index<Spot> = HashMap::with_hasher(alloc, hashing_of(spots));
    for spot in spots {
        push_at(alloc, &mut index, (spot.len, spot.first), *spot)?;
    }
    Ok(index)
}

fn push_links(found: &mut List<Link>, p: &Spot, others: &[Spot]) -> Result<(), NoMemory>
    ensures { OnOk result (found.new ≡ found.old ++ map (spot_link p.now) (filter (is_later p.now) others.now)) }
{
    for q in others {
        if p.router < q.router {
            found.push(Link {
                low: p.router,
                high: q.router,
                low_item: p.item,
                high_item: q.item,
            })?;
        }
    }
    Ok(())
}

fn push_links_of(
    found: &mut List<Link>,
    p: &Spot,
    spots: &[Spot],
    index: &Index<Spot>,
) -> Result<(), NoMemory>
    requires { IsIndex pair_of index.now spots.now }
    ensures { OnOk result (found.new ≡ found.old ++ links_in spots.now p.now) }
{
    push_links(found, p, items_at(index, (p.len, p.first)))
}

fn links_of(alloc: Global, spots: &[Spot]) -> Result<List<Link>, NoMemory>
    ensures { IfOk result (λ links. links ≡ flat_map (links_in spots.now) spots.now) }
{
    let index = by_subnet(alloc, spots)?;
    let mut found = List::new(alloc);
    for p in spots {
        push_links_of(&mut found, p, spots, &index)?;
    }
    Ok(found)
}

/// The OSPF adjacencies of the network, in order.
#[tactic(auto, using(crate::proofs::Adjacent::adjacencies_by_index))]
pub(crate) fn adjacencies(alloc: Global, network: &Network) -> Result<List<Link>, NoMemory>
    requires { HasFewPlaces network.now.routers }
    ensures { IfOk result (λ links. links ≡ adjacencies_of network.now) }
{
    let spots = spots(alloc, network)?;
    links_of(alloc, spots.as_slice())
}
