//! Neighbours that are part of no session.

ghost use Rattle.std.specs.Prelude.{◌≡◌, ◌++◌, map, filter_map, flat_map, IfOk, OnOk};
ghost use Rattle.std.specs.List.{enumerate_from, list_any};
ghost use Rattle.cfg_ast.specs.meaning.Topology.{place_on, places_on, neighbors_of, unmatched_of};
ghost use Rattle.net_topology.specs.Alone.{faces, has_session, unmatched_if, unmatched_spot};
ghost use Rattle.net_topology.specs.FewPlaces.{HasFewItems, HasFewPlaces};

use crate::peers::{Peer, Peers, name_each_other, neighbors, peer_on};
use crate::places::{place, places_are_few};
use crate::ups::Ups;
use base_kit::{List, NoMemory};
use cfg_ast::{Router, Unmatched};
use cfg_check::Checked;
use std::alloc::Global;

fn faces(p: &Peer, q: &Peer) -> bool
    ensures { result ≡ faces p.now q.now }
{
    p.router != q.router && name_each_other(p, q)
}

fn one_faces(p: &Peer, others: &[Peer]) -> bool
    ensures { result ≡ list_any (faces p.now) others.now }
{
    others.iter().any(|q| faces(p, q))
}

// Whether the peer is part of a session.
fn has_session(ups: &Ups, peers: &Peers, peer: Option<Peer>) -> bool
    ensures { result ≡ has_session ups.now.all.items peers.now.all.items peer }
{
    let Some(p) = peer else {
        return false;
    };
    one_faces(&p, peers.at(ups.other_end(&p)))
}

fn unmatched_if(matched: bool, router: u32, addr: u32) -> Option<Unmatched>
    ensures { result ≡ unmatched_if matched (record { router = router; addr = addr }) }
{
    if matched {
        None
    } else {
        Some(Unmatched { router, addr })
    }
}

fn push_unmatched(
    found: &mut List<Unmatched>,
    ups: &Ups,
    peers: &Peers,
    router: u32,
    owner: &Router,
) -> Result<(), NoMemory>
    requires { HasFewItems owner.now }
    ensures { OnOk result (found.new ≡ found.old ++ filter_map (unmatched_spot ups.now.all.items peers.now.all.items) (map (place_on router owner.now) (enumerate_from 0 (neighbors_of owner.now)))) }
{
    let neighbors = neighbors(owner);
    for i in 0..neighbors.len() {
        let item = place(i);
        let neighbor = &neighbors[i];
        let peer = peer_on(router, item, owner, neighbor);
        let matched = has_session(ups, peers, peer);
        if let Some(x) = unmatched_if(matched, router, neighbor.addr) {
            found.push(x)?;
        }
    }
    Ok(())
}

fn unmatched_among(
    alloc: Global,
    routers: &[Router],
    ups: &Ups,
    peers: &Peers,
) -> Result<List<Unmatched>, NoMemory>
    requires { HasFewPlaces routers.now }
    ensures { IfOk result (λ found. found ≡ filter_map (unmatched_spot ups.now.all.items peers.now.all.items) (flat_map (places_on neighbors_of) (enumerate_from 0 routers.now))) }
{
    let mut found = List::new(alloc);
    for r in 0..routers.len() {
        let router = place(r);
        push_unmatched(&mut found, ups, peers, router, &routers[r])?;
    }
    Ok(found)
}

/// The neighbours that are part of no session, also those that are shut down, in order. The only error
/// is that memory ran out.
#[tactic(auto, using(crate::proofs::AloneLemmas::unmatched_by_index))]
pub fn unmatched(alloc: Global, net: &Checked) -> Result<List<Unmatched>, NoMemory>
    ensures { IfOk result (λ found. found ≡ unmatched_of net.now.network) }
{
    places_are_few(net);
    let network = net.network();
    let routers = network.routers.as_slice();
    let ups = Ups::of(alloc, routers)?;
    let peers = Peers::of(alloc, network)?;
    unmatched_among(alloc, routers, &ups, &peers)
}
