//! The links of a text: it is read and checked, and its links are walked.

ghost use Rattle.std.specs.Prelude.{◌≡◌, ◌≤◌, IfOk, Ok, length};
ghost use Rattle.cfg_ast.specs.meaning.Topology.{links_of};
ghost use Rattle.cfg_ast.specs.text.Reading.{reading_of};
ghost use Rattle.library_uses.specs.Degrees.{degree_of};

use base_kit::NoMemory;
use cfg_ast::ReadRefusal;
use cfg_check::{Checked, check_network};
use cfg_parse::read_network;
use net_topology::links;
use std::alloc::Global;

/// The network of a text, or the line at fault with its kind.
pub fn checked_network(alloc: Global, text: &[u8]) -> Result<Checked, ReadRefusal>
    requires { length text.now ≤ 16777216 }
    ensures { IfOk result (λ checked. reading_of text.now ≡ Ok checked.network) }
{
    let network = read_network(alloc, text)?;
    let checked = check_network(alloc, network)?;
    Ok(checked)
}

/// How many links of the network end at a router.
pub fn degree(alloc: Global, net: &Checked, router: u32) -> Result<usize, NoMemory>
    ensures { IfOk result (λ count. count ≡ degree_of router (links_of net.now.network)) }
{
    let links = links(alloc, net)?;
    let count = links
        .as_slice()
        .iter()
        .filter(|link| link.low == router || link.high == router)
        .count();
    Ok(count)
}
