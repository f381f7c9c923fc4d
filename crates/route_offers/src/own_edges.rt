//! The edges of a router.

ghost use Rattle.std.specs.Prelude.{◌≡◌, ◌≢◌, ◌<◌, ◌≤◌, slice_index_or, length};
ghost use Rattle.std.specs.List.{AllWithin};
ghost use Rattle.base_kit.specs.declared.act_graph.Edge.{Edge};

use base_kit::Edge;

/// The place behind the edges of the router, which begin at `first`.
pub fn end_of(edges: &[Edge], router: u32, first: usize) -> usize
    requires first { first ≤ length edges.now }
    ensures bounds { (first ≤ result) × (result ≤ length edges.now) }
    ensures own { AllWithin (λ edge. edge.importer ≡ router) edges.now first result }
    ensures other { result < length edges.now → (d : Edge) → (slice_index_or edges.now result d).importer ≢ router }
{
    let mut end = first;
    while end < edges.len() && edges[end].importer == router {
        end += 1;
    }
    end
}
