//! The links of a network.

ghost use Rattle.std.specs.Prelude.{◌≡◌, ◌++◌, IfOk, OnOk};
ghost use Rattle.cfg_ast.specs.meaning.Topology.{links_of};

use crate::adjacencies::adjacencies;
use crate::places::places_are_few;
use crate::sessions::sessions;
use base_kit::{List, NoMemory};
use cfg_ast::Link;
use cfg_check::Checked;
use std::alloc::Global;

fn append(links: &mut List<Link>, more: &[Link]) -> Result<(), NoMemory>
    ensures { OnOk result (links.new ≡ links.old ++ more.now) }
{
    for link in more {
        links.push(*link)?;
    }
    Ok(())
}

// The links of both lists. The second one is not copied if it is the only one that has links.
fn joined(links: List<Link>, more: List<Link>) -> Result<List<Link>, NoMemory>
    ensures { IfOk result (λ all. all ≡ links ++ more) }
{
    if links.is_empty() {
        return Ok(more);
    }
    let mut all = links;
    append(&mut all, more.as_slice())?;
    Ok(all)
}

/// The links of a network: its BGP sessions or its OSPF adjacencies, in the order of their ends, the
/// earlier end first. The only error is that memory ran out.
#[tactic(auto, unfolding(cfg_ast::specs::meaning::Topology::links_of))]
pub fn links(alloc: Global, net: &Checked) -> Result<List<Link>, NoMemory>
    ensures { IfOk result (λ links. links ≡ links_of net.now.network) }
{
    places_are_few(net);
    let network = net.network();
    let sessions = sessions(alloc, network)?;
    let adjacencies = adjacencies(alloc, network)?;
    let links = joined(sessions, adjacencies)?;
    Ok(links)
}
