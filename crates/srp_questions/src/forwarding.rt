//! The routers to whom each router forwards.

ghost use Rattle.std.specs.Prelude.{◌≡◌, ◌≢◌, ◌<◌, ◌≤◌, ◌-◌, true, false, All, IfOk, OnOk, length, slice_index};
ghost use Rattle.std.specs.List.Sorted.{IsNonDecreasingBy};
ghost use Rattle.base_kit.specs.Sets.{IsAscending, with_number};
ghost use Rattle.base_kit.specs.declared.act_graph.Edge.{Edge};
ghost use Rattle.srp_core.specs.Problem.{count, is_lone_number, IsEdgeOf};
ghost use Rattle.srp_core.specs.Routes.{path_of, chosen};
ghost use Rattle.srp_core.specs.Stability.{AreLabels};
ghost use Rattle.route_offers.specs.Lone.{IsLoneOf};
ghost use Rattle.route_offers.specs.Offers.{AreOwn};
ghost use Rattle.srp_questions.specs.NextHops.{AreNextOf, AreNextHops};
ghost use Rattle.srp_questions.specs.Ties.{tied_exporters};

use crate::ties::ties_over;
use base_kit::{Edge, List, NoMemory, NumSet};
use route_offers::{Lone, end_of, lone_of_labels};
use shared_routes::SharedLabels;
use srp_core::{Labels, Route, Srp};
use std::alloc::Global;

fn is_last(found: &[u32], number: u32) -> bool
    ensures last { result ≡ true → (0 < length found.now) × (slice_index found.now (length found.now - 1) ≡ number) }
    ensures other { result ≡ false → 0 < length found.now → slice_index found.now (length found.now - 1) ≢ number }
{
    let length = found.len();
    length > 0 && found[length - 1] == number
}

// Puts a number last that is not below those before, once.
fn push_once(found: &mut Vec<u32>, number: u32) -> Result<(), NoMemory>
    requires ascending { IsAscending found.old.items }
    requires below { All (λ other. other ≤ number) found.old.items }
    ensures { OnOk result (found.new.items ≡ with_number number found.old.items) }
{
    if is_last(found.as_slice(), number) {
        return Ok(());
    }
    found.push(number)?;
    Ok(())
}

// The exporters of those edges, which stand by exporter, that give a route of the key of the label.
fn tied_exporters(
    alloc: Global,
    srp: &Srp,
    labels: &Labels,
    lone: &Lone,
    edges: &[Edge],
    route: &Route,
    other: &NumSet,
) -> Result<NumSet, NoMemory>
    requires edges { All (IsEdgeOf srp.now) edges.now }
    requires rising { IsNonDecreasingBy (λ edge. edge.exporter) edges.now }
    requires labels { AreLabels srp.now labels.now }
    requires lone { IsLoneOf srp.now labels.now lone.now }
    requires other { other.now ≡ chosen (is_lone_number srp.now) (path_of route.now) }
    ensures { IfOk result (λ found. found ≡ tied_exporters srp.now labels.now route.now edges.now) }
{
    let mut found = Vec::new(alloc);
    for edge in edges {
        if ties_over(alloc, srp, labels, lone, edge, route, other)? {
            push_once(&mut found, edge.exporter)?;
        }
    }
    Ok(NumSet::from_ascending(alloc, found))
}

// Those to whom one router forwards, by its edges.
fn next_of(
    alloc: Global,
    srp: &Srp,
    labels: &Labels,
    lone: &Lone,
    router: u32,
    edges: &[Edge],
) -> Result<NumSet, NoMemory>
    requires router { router < count srp.now }
    requires own { AreOwn srp.now router edges.now }
    requires rising { IsNonDecreasingBy (λ edge. edge.exporter) edges.now }
    requires labels { AreLabels srp.now labels.now }
    requires lone { IsLoneOf srp.now labels.now lone.now }
    ensures { IfOk result (AreNextOf srp.now labels.now router) }
{
    let _known = srp.count();
    match &labels.as_slice()[router as usize] {
        Some(route) => {
            let other = &lone.paths.as_slice()[router as usize];
            tied_exporters(alloc, srp, labels, lone, edges, route, other)
        }
        None => Ok(NumSet::new(alloc)),
    }
}

// Those to whom each router forwards. The edges are gone over once, and no path is built.
fn hops_under(alloc: Global, srp: &Srp, labels: &Labels) -> Result<List<NumSet>, NoMemory>
    requires { AreLabels srp.now labels.now }
    ensures { IfOk result (AreNextHops srp.now labels.now) }
{
    let lone = lone_of_labels(alloc, srp, labels)?;
    let edges = srp.edges();
    let mut hops = List::new(alloc);
    let mut first = 0;
    for router in 0..srp.count() {
        let end = end_of(edges, router, first);
        let next = next_of(alloc, srp, labels, &lone, router, &edges[first..end])?;
        hops.push(next)?;
        first = end;
    }
    Ok(hops)
}

/// For each router those to whom it forwards, ascending: the exporters of its edges that give it a
/// route of the key of its label.
///
/// # Errors
/// Out of memory.
pub fn next_hops(alloc: Global, srp: &Srp, labels: &SharedLabels) -> Result<List<NumSet>, NoMemory>
    requires { AreLabels srp.now labels.now }
    ensures { IfOk result (AreNextHops srp.now labels.now) }
{
    // (what an edge gives its importer is found over whole paths)
    let plain = labels.plain(alloc)?;
    hops_under(alloc, srp, &plain)
}
