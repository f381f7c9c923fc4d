//! What a router gets while labels are carried to it.

ghost use Rattle.std.specs.Prelude.{◌≡◌, ℕ, ◌<◌, ◌&&◌, Some, IfOk, bytes_eq, length, nat_eq, slice_index};
ghost use Rattle.std.specs.HashSet.{contains};
ghost use Rattle.route_keys.specs.Lone.{HasLoneNumbers};
ghost use Rattle.srp_core.specs.Problem.{count, key_of};
ghost use Rattle.srp_core.specs.Routes.{path_of, chosen, IsRouteOf};
ghost use Rattle.srp_core.specs.Stability.{label, AreLabels};
ghost use Rattle.solution_lift.specs.Carrying.{IsTakenOver, GetsRoute, source_of};
ghost use Rattle.solution_lift.specs.Sides.{is_from, are_alike};

use base_kit::{Edge, NoMemory, NumSet};
use route_keys::LoneNumbers;
use shared_routes::{RouteParts, SharedCandidate, SharedLabels, SharedRoute, candidates, lone_on};
use srp_core::{Route, Srp};
use std::alloc::Global;
use std::collections::HashMap;

// Whether the candidate came over an edge from that side.
fn is_from(edges: &[Edge], sides: &[u32], candidate: &SharedCandidate, source: u32) -> bool
    ensures { result ≡ is_from edges.now sides.now source candidate.now }
{
    match candidate.edge() {
        Some(place) => match edges.get(place as usize) {
            Some(edge) => sides.get(edge.exporter as usize).copied().unwrap_or(0) == source,
            None => false,
        },
        None => false,
    }
}

// Whether two routes have one preference, one size and the same communities.
fn are_alike(route: &SharedRoute, other: &Route) -> bool
    ensures { result ≡ are_alike route.now other.now }
{
    match (route.parts(), other) {
        (
            RouteParts::Bgp { lp, path, comms },
            Route::Bgp {
                lp: other_lp,
                path: other_path,
                comms: other_comms,
            },
        ) => {
            *lp == *other_lp
                && path.len() == other_path.as_slice().len()
                && comms.as_slice() == other_comms.as_slice()
        }
        (RouteParts::Ospf { cost }, Route::Ospf { cost: other }) => *cost == *other,
        (RouteParts::Bgp { .. }, Route::Ospf { .. }) => false,
        (RouteParts::Ospf { .. }, Route::Bgp { .. }) => false,
    }
}

// Whether the candidate came from that side and has the key of the route asked for, on whose path there
// are these numbers of lone routers.
fn fits(
    alloc: Global,
    edges: &[Edge],
    sides: &[u32],
    lone: &LoneNumbers,
    candidate: &SharedCandidate,
    source: u32,
    asked: &Route,
    wanted: &NumSet,
) -> Result<bool, NoMemory>
    ensures { IfOk result (λ fits. fits ≡ (is_from edges.now sides.now source candidate.now && (are_alike candidate.now.route asked.now && bytes_eq (chosen (contains nat_eq lone.now) (path_of candidate.now.route)) wanted.now))) }
{
    if !is_from(edges, sides, candidate, source) {
        return Ok(false);
    }
    if !are_alike(candidate.route(), asked) {
        return Ok(false);
    }
    let found = lone_on(alloc, lone, candidate.route())?;
    Ok(found.as_slice() == wanted.as_slice())
}

// The route of the key of the one asked for that the router takes from that side.
fn taken(
    alloc: Global,
    target: &Srp,
    sides: &[u32],
    lone: &LoneNumbers,
    labels: &SharedLabels,
    router: u32,
    source: u32,
    asked: &Route,
) -> Result<Option<SharedRoute>, NoMemory>
    requires router { router < count target.now }
    requires labels { AreLabels target.now labels.now }
    requires asked { IsRouteOf target.now.protocol asked.now }
    requires lone { HasLoneNumbers target.now lone.now }
    ensures { IfOk result (IsTakenOver target.now sides.now labels.now router source (key_of target.now asked.now)) }
{
    let _known = target.count();
    let wanted = route_keys::lone_on(alloc, lone, asked)?;
    let edges = target.edges();
    let candidates = candidates(alloc, target, labels, router)?;
    for candidate in candidates.as_slice() {
        let is_fit = fits(alloc, edges, sides, lone, candidate, source, asked, &wanted)?;
        if is_fit {
            return Ok(Some(candidate.route().copy(alloc)?));
        }
    }
    Ok(None)
}

// The side of the number that is first on a route's path.
fn source_of(sources: &HashMap<u32, u32>, route: &Route) -> Option<u32>
    ensures { result ≡ source_of sources.now route.now }
{
    match route {
        Route::Bgp { path, .. } => match path.as_slice().first() {
            Some(number) => sources.get(number).copied(),
            None => None,
        },
        Route::Ospf { .. } => None,
    }
}

/// What a router of the target gets while labels are carried to it: its initial route, or a route that
/// the labels so far give. That route has the key of the route that the router asks for, and comes from
/// the side of the first number on the path of the route asked for.
pub fn next(
    alloc: Global,
    target: &Srp,
    asked: &[Option<Route>],
    at: &[u32],
    sides: &[u32],
    sources: &HashMap<u32, u32>,
    lone: &LoneNumbers,
    labels: &SharedLabels,
    router: u32,
) -> Result<Option<SharedRoute>, NoMemory>
    requires router { router < count target.now }
    requires place { router < length at.now }
    requires labels { AreLabels target.now labels.now }
    requires lone { HasLoneNumbers target.now lone.now }
    requires asked { (u : ℕ) (r : Route) → label asked.now u ≡ Some r → IsRouteOf target.now.protocol r }
    ensures { IfOk result (GetsRoute target.now asked.now at.now sides.now sources.now labels.now router) }
{
    let _known = target.count();
    if let Some(route) = &target.init()[router as usize] {
        return Ok(Some(SharedRoute::from_route(alloc, route)?));
    }
    match asked.get(at[router as usize] as usize) {
        Some(Some(wanted)) => match source_of(sources, wanted) {
            Some(source) => taken(alloc, target, sides, lone, labels, router, source, wanted),
            None => Ok(None),
        },
        Some(None) => Ok(None),
        None => Ok(None),
    }
}
