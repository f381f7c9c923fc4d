//! The edges of a graph by their importers.

ghost use Rattle.std.specs.Prelude.{◌≡◌, ◌<◌, [], All, IfOk, length};
ghost use Rattle.cut_certificate.specs.Outgoing.{AreIndexed};

use base_kit::{ActGraph, Edge, NoMemory};
use std::alloc::Global;

/// An edge and its place among the edges of its graph.
#[derive(Clone, Copy)]
pub(crate) struct Placed {
    pub(crate) place: u32,
    pub(crate) edge: Edge,
}

pub(crate) fn empty_lists(alloc: Global, count: u32) -> Result<Vec<Vec<Placed>>, NoMemory>
    ensures total { IfOk result (λ v. length v.items ≡ count) }
    ensures empty { IfOk result (λ v. All (λ l. l.items ≡ []) v.items) }
{
    let mut lists = Vec::new(alloc);
    for _list in 0..count {
        lists.push(Vec::new(alloc))?;
    }
    Ok(lists)
}

/// For each router the edges that it imports over.
pub(crate) fn by_importer(alloc: Global, graph: &ActGraph) -> Result<Vec<Vec<Placed>>, NoMemory>
    ensures { IfOk result (λ v. AreIndexed graph.now v.items) }
{
    let mut lists = empty_lists(alloc, graph.count)?;
    let mut place = 0;
    for edge in graph.edges.as_slice() {
        lists[edge.importer as usize].push(Placed { place, edge: *edge })?;
        place += 1;
    }
    Ok(lists)
}
