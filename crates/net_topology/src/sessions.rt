//! BGP sessions.

ghost use Rattle.std.specs.Prelude.{◌≡◌, ◌++◌, map, filter, flat_map, IfOk, OnOk};
ghost use Rattle.cfg_ast.specs.meaning.Topology.{sessions_of};
ghost use Rattle.cfg_check.specs.Faultless.{IsFaultless};
ghost use Rattle.net_topology.specs.FewPlaces.{HasFewPlaces};
ghost use Rattle.net_topology.specs.Peers.{is_later_peer, peer_link, sessions_in};

use crate::peers::{Peer, Peers, name_each_other};
use crate::ups::Ups;
use base_kit::{List, NoMemory};
use cfg_ast::{Link, Network};
use std::alloc::Global;

fn push_sessions(found: &mut List<Link>, p: &Peer, others: &[Peer]) -> Result<(), NoMemory>
    ensures { OnOk result (found.new ≡ found.old ++ map (peer_link p.now) (filter (is_later_peer p.now) others.now)) }
{
    for q in others {
        if p.router < q.router && name_each_other(p, q) {
            found.push(Link {
                low: p.router,
                high: q.router,
                low_item: p.item,
                high_item: q.item,
            })?;
        }
    }
    Ok(())
}

fn push_sessions_of(
    found: &mut List<Link>,
    p: &Peer,
    ups: &Ups,
    peers: &Peers,
) -> Result<(), NoMemory>
    ensures { OnOk result (found.new ≡ found.old ++ sessions_in ups.now.all.items peers.now.all.items p.now) }
{
    push_sessions(found, p, peers.at(ups.later_end(p)))
}

fn sessions_among(alloc: Global, ups: &Ups, peers: &Peers) -> Result<List<Link>, NoMemory>
    ensures { IfOk result (λ links. links ≡ flat_map (sessions_in ups.now.all.items peers.now.all.items) peers.now.all.items) }
{
    let mut found = List::new(alloc);
    let all = peers.all.as_slice();
    for p in all {
        push_sessions_of(&mut found, p, ups, peers)?;
    }
    Ok(found)
}

/// The BGP sessions of a network without faults, in order.
#[tactic(auto, using(crate::proofs::SessionLemmas::sessions_by_index))]
pub(crate) fn sessions(alloc: Global, network: &Network) -> Result<List<Link>, NoMemory>
    requires faultless { IsFaultless network.now }
    requires few { HasFewPlaces network.now.routers }
    ensures { IfOk result (λ links. links ≡ sessions_of network.now) }
{
    let peers = Peers::of(alloc, network)?;
    // Without peers no address is looked up, so no table of addresses is made.
    if peers.all.as_slice().is_empty() {
        return Ok(List::new(alloc));
    }
    let ups = Ups::of(alloc, network.routers.as_slice())?;
    sessions_among(alloc, &ups, &peers)
}
