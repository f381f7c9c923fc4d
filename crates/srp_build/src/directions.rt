//! The directions of a network's links, which serve all classes.

ghost use Rattle.std.specs.Prelude.{◌≡◌, IfOk};
ghost use Rattle.cfg_ast.specs.meaning.RouterFaults.{protocol_of};
ghost use Rattle.cfg_ast.specs.meaning.Topology.{links_of};
ghost use Rattle.srp_build.specs.Directions.{AreDirectionsOf};
ghost use Rattle.srp_build.specs.Problem.{is_bgp};

use crate::costs::{Numbered, number_edges};
use crate::hop_numbers::sorted_hops;
use crate::placed_edges::placed_edges;
use crate::session_hops::{SessionHops, session_hops};
use base_kit::{List, NoMemory, Protocol};
use cfg_ast::Link;
use cfg_check::Checked;
use given_laws::given_is_well_formed;
use net_topology::laws::few_links;
use std::alloc::Global;

/// The directions of the links of a network, by importer, then exporter, then link. They do not depend
/// on a class.
#[derive(Drop)]
pub enum Directions {
    /// Over BGP sessions, with the policies of the neighbour lines.
    OfSessions(SessionHops),
    /// Over OSPF adjacencies, each as an edge that is numbered by its cost.
    OfAdjacencies(Numbered),
}

fn runs_bgp(net: &Checked) -> bool
    ensures { result ≡ is_bgp (protocol_of net.now.network) }
{
    match net.protocol() {
        Some(Protocol::Bgp) => true,
        Some(Protocol::Ospf) => false,
        None => false,
    }
}

/// The directions of a checked network, whose links these are.
///
/// # Errors
/// Out of memory.
pub fn directions_of(
    alloc: Global,
    net: &Checked,
    links: &List<Link>,
) -> Result<Directions, NoMemory>
    requires { links.now ≡ links_of net.now.network }
    ensures { IfOk result (AreDirectionsOf net.now.network) }
{
    given_is_well_formed();
    few_links();
    let routers = net.network().routers.as_slice();
    let links = links.as_slice();
    if runs_bgp(net) {
        let hops = sorted_hops(alloc, routers.len(), links)?;
        let found = session_hops(alloc, routers, hops)?;
        return Ok(Directions::OfSessions(found));
    }
    let edges = placed_edges(alloc, routers.len(), links)?;
    let numbered = number_edges(alloc, routers, edges)?;
    Ok(Directions::OfAdjacencies(numbered))
}
