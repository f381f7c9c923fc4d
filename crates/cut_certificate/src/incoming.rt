//! The edges of a graph by their exporters.

ghost use Rattle.std.specs.Prelude.{IfOk};
ghost use Rattle.cut_certificate.specs.Moves.{AreIncoming};

use crate::outgoing::{Placed, empty_lists};
use base_kit::{ActGraph, NoMemory};
use std::alloc::Global;

/// For each router the edges that it exports over.
pub(crate) fn by_exporter(alloc: Global, graph: &ActGraph) -> Result<Vec<Vec<Placed>>, NoMemory>
    ensures { IfOk result (λ v. AreIncoming graph.now v.items) }
{
    let mut lists = empty_lists(alloc, graph.count)?;
    let mut place = 0;
    for edge in graph.edges.as_slice() {
        lists[edge.exporter as usize].push(Placed { place, edge: *edge })?;
        place += 1;
    }
    Ok(lists)
}
