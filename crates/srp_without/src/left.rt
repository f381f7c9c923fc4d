//! The initial routes and the edges that are left.

ghost use Rattle.std.specs.Prelude.{◌≡◌, false, None, IfOk, filter, slice_index_or, if◌then◌else◌};
ghost use Rattle.srp_core.specs.Without.{marked_down, is_left};
ghost use Rattle.srp_without.specs.Left.{left_from};

use base_kit::{Edge, List, NoMemory};
use srp_core::Route;
use std::alloc::Global;

fn start_copy(alloc: Global, start: &Option<Route>) -> Result<Option<Route>, NoMemory>
    ensures { IfOk result (λ copy. copy ≡ start.now) }
{
    match start {
        Some(route) => Ok(Some(route.copy(alloc)?)),
        None => Ok(None),
    }
}

fn is_marked(marks: &[bool], place: usize) -> bool
    ensures { result ≡ slice_index_or marks.now place false }
{
    if place < marks.len() {
        marks[place]
    } else {
        false
    }
}

fn is_left(edge: &Edge, routers: &[bool], links: &[bool]) -> bool
    ensures { result ≡ is_left (marked_down routers.now links.now) edge.now }
{
    !is_marked(links, edge.link as usize)
        && (!is_marked(routers, edge.importer as usize)
            && !is_marked(routers, edge.exporter as usize))
}

/// The edges that are left, in order.
pub fn edges_left(
    alloc: Global,
    edges: &[Edge],
    routers: &[bool],
    links: &[bool],
) -> Result<Vec<Edge>, NoMemory>
    ensures { IfOk result (λ left. left.items ≡ filter (is_left (marked_down routers.now links.now)) edges.now) }
{
    let left = edges
        .iter()
        .filter(|edge| is_left(edge, routers, links))
        .copied()
        .collect(alloc)?;
    Ok(left)
}

fn start_left(
    alloc: Global,
    start: &Option<Route>,
    is_down: bool,
) -> Result<Option<Route>, NoMemory>
    ensures { IfOk result (λ left. left ≡ (if is_down then None else start.now)) }
{
    if is_down {
        return Ok(None);
    }
    start_copy(alloc, start)
}

/// The initial routes that are left.
pub fn starts_left(
    alloc: Global,
    starts: &[Option<Route>],
    routers: &[bool],
) -> Result<List<Option<Route>>, NoMemory>
    ensures { IfOk result (λ left. left ≡ left_from routers.now starts.now) }
{
    let mut left = List::new(alloc);
    for place in 0..starts.len() {
        let start = start_left(alloc, &starts[place], is_marked(routers, place))?;
        left.push(start)?;
    }
    Ok(left)
}
