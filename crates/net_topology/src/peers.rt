//! Neighbour lines, found by the address that they name.

ghost use Rattle.std.specs.Prelude.{◌≡◌, ◌++◌, map, filter, filter_map, IfOk, OnOk};
ghost use Rattle.std.specs.List.{enumerate_from};
ghost use Rattle.cfg_ast.specs.meaning.Topology.{place_on, neighbors_of};
ghost use Rattle.buckets.specs.Buckets.{IsIndex};
ghost use Rattle.net_topology.specs.FewPlaces.{HasFewItems, HasFewPlaces};
ghost use Rattle.net_topology.specs.Peers.{peer_on, peer_at_place, peers, own_end, name_each_other, is_end_of};

use crate::places::place;
use base_kit::NoMemory;
use buckets::{Index, items_at, push_at};
use cfg_ast::{Neighbor, Network, Router};
use number_hashing::{NumberDigest, NumberHashing};
use std::alloc::Global;
use std::collections::HashMap;

/// A neighbour that is not shut down, by its place, with the AS number of its router and its own
/// number and address.
#[derive(Clone, Copy)]
pub(crate) struct Peer {
    pub(crate) router: u32,
    pub(crate) item: u32,
    pub(crate) number: u32,
    pub(crate) remote: u32,
    pub(crate) addr: u32,
}

/// The peers of a network, in order, and those of each router that name an address.
#[derive(Drop)]
pub(crate) struct Peers {
    pub(crate) all: Vec<Peer>,
    pub(crate) by_end: Index<Peer>,
    pub ghost indexed: { IsIndex own_end by_end all.items },
}

pub(crate) fn peer_on(router: u32, item: u32, owner: &Router, neighbor: &Neighbor) -> Option<Peer>
    ensures { result ≡ peer_on router item owner.now neighbor.now }
{
    let process = owner.bgp.as_ref()?;
    if neighbor.shut {
        return None;
    }
    Some(Peer {
        router,
        item,
        number: process.number,
        remote: neighbor.remote,
        addr: neighbor.addr,
    })
}

/// Whether each of two peers names the AS number of the other's router.
pub(crate) fn name_each_other(p: &Peer, q: &Peer) -> bool
    ensures { result ≡ name_each_other p.now q.now }
{
    p.remote == q.number && p.number == q.remote
}

pub(crate) fn neighbors(owner: &Router) -> &[Neighbor]
    ensures { result.now ≡ neighbors_of owner.now }
{
    match &owner.bgp {
        Some(process) => process.neighbors.as_slice(),
        None => &[],
    }
}

fn push_peers(found: &mut Vec<Peer>, router: u32, owner: &Router) -> Result<(), NoMemory>
    requires { HasFewItems owner.now }
    ensures { OnOk result (found.new.items ≡ found.old.items ++ filter_map peer_at_place (map (place_on router owner.now) (enumerate_from 0 (neighbors_of owner.now)))) }
{
    let neighbors = neighbors(owner);
    for i in 0..neighbors.len() {
        let item = place(i);
        if let Some(peer) = peer_on(router, item, owner, &neighbors[i]) {
            found.push(peer)?;
        }
    }
    Ok(())
}

fn all_peers(alloc: Global, network: &Network) -> Result<Vec<Peer>, NoMemory>
    requires { HasFewPlaces network.now.routers }
    ensures { IfOk result (λ found. found.items ≡ peers network.now) }
{
    let mut found = Vec::new(alloc);
    let routers = network.routers.as_slice();
    for r in 0..routers.len() {
        let router = place(r);
        push_peers(&mut found, router, &routers[r])?;
    }
    Ok(found)
}

// The hash for a table of the routers of peers and the addresses that they name.
fn hashing_of(peers: &[Peer]) -> NumberHashing {
    let mut numbers = NumberDigest::for_count(peers.len());
    for peer in peers {
        numbers.add_pair(peer.router, peer.addr);
    }
    numbers.hashing()
}

// The peers by their routers and the addresses that they name, in order.
fn by_end(alloc: Global, peers: &[Peer]) -> Result<Index<Peer>, NoMemory>
    ensures { IfOk result (λ index. IsIndex own_end index peers.now) }
{
    let mut index: Index<Peer> = HashMap::with_capacity_and_hasher(
        alloc,
        peers.len(),
        hashing_of(peers),
    )?;
    for peer in peers {
        push_at(alloc, &mut index, (peer.router, peer.addr), *peer)?;
    }
    Ok(index)
}

impl Peers {
    pub(crate) fn of(alloc: Global, network: &Network) -> Result<Peers, NoMemory>
        requires { HasFewPlaces network.now.routers }
        ensures { IfOk result (λ found. found.all.items ≡ peers network.now) }
    {
        let all = all_peers(alloc, network)?;
        let by_end = by_end(alloc, all.as_slice())?;
        Ok(Peers { all, by_end })
    }

    /// The peers of a router that name an address, in order.
    pub(crate) fn at(&self, end: Option<(u32, u32)>) -> &[Peer]
        ensures { result.now ≡ filter (is_end_of end) self.now.all.items }
    {
        match end {
            Some(end) => items_at(&self.by_end, end),
            None => &[],
        }
    }
}
