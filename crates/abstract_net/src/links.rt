//! The links between the groups of a partition.

ghost use Rattle.std.specs.Prelude.{◌≡◌, ℕ, ◌<◌, ◌^◌, All, length, IfOk};
ghost use Rattle.base_kit.specs.Partition.{IsNumbered};
ghost use Rattle.abstract_net.specs.Links.{quotient_links};

use crate::qlink::Quotient;
use crate::runs::links_of;
use crate::steps::sorted_steps;
use base_kit::{ActGraph, Edge, NoMemory};
use refine_partition::Partition;
use std::alloc::Global;

/// The links between the groups of a partition of routers, from a slice of edges. There are fewer than
/// 2^32 edges, and both ends of each are among the routers.
///
/// The links are ordered by their lower and then their higher group. Between two groups the first link
/// has the first act of each direction, the second link the second, and so on. The different acts of a
/// direction are ordered by the least links of the edges that have them, and each act is given by the
/// first such edge.
///
/// # Errors
/// Out of memory.
pub fn quotient_over(alloc: Global, edges: &[Edge], p: &Partition) -> Result<Quotient, NoMemory>
    requires few { length edges.now < 2 ^ 32 }
    requires importers { All (λ e. e.importer < length p.now) edges.now }
    requires exporters { All (λ e. e.exporter < length p.now) edges.now }
    ensures links { IfOk result (λ q. (count : ℕ) → IsNumbered p.now count → q.links ≡ quotient_links edges.now p.now count) }
{
    let steps = sorted_steps(alloc, edges, p)?;
    let links = links_of(alloc, &steps)?;
    Ok(Quotient { links })
}

/// The links between the groups of a partition of a graph's routers, as `quotient_over` gives them from
/// the graph's edges.
///
/// # Errors
/// Out of memory.
pub fn quotient(alloc: Global, graph: &ActGraph, p: &Partition) -> Result<Quotient, NoMemory>
    requires { length p.now ≡ graph.now.count }
    ensures links { IfOk result (λ q. (count : ℕ) → IsNumbered p.now count → q.links ≡ quotient_links graph.now.edges p.now count) }
{
    quotient_over(alloc, graph.edges.as_slice(), p)
}
