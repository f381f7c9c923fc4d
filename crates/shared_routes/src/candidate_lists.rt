//! The routes that a router may take. Their paths share their tails.

ghost use Rattle.std.specs.Prelude.{◌≡◌, ◌<◌, ◌++◌, All, IfOk, OnOk, None};
ghost use Rattle.srp_core.specs.Candidates.{candidates, over, candidate_of};
ghost use Rattle.srp_core.specs.Problem.{count, initial, IsEdgeOf};
ghost use Rattle.srp_core.specs.Routes.{IsRouteOf};
ghost use Rattle.srp_core.specs.Stability.{AreLabels};

use crate::labels::SharedLabels;
use crate::routes::SharedRoute;
use crate::stepping::route_by;
use base_kit::{Edge, NoMemory};
use srp_core::{Route, Srp, own_edges};
use std::alloc::Global;
use std::marker::Model;

/// A route that a router may take: its initial route, or that of an edge, by its place.
#[derive(Drop)]
pub struct SharedCandidate {
    edge: Option<u32>,
    route: SharedRoute,
}

impl Model for SharedCandidate {
    ghost use Rattle.srp_core.specs.declared.route.Candidate.{Candidate};

    ghost Value = { Candidate };

    ghost view = { λ c. record { edge = c.edge; route = c.route } };
}

impl SharedCandidate {
    /// The edge over which it comes, None where it is the initial route.
    pub fn edge(&self) -> Option<u32>
        ensures { result ≡ self.now.edge }
    {
        self.edge
    }

    /// Its route.
    pub fn route(&self) -> &SharedRoute
        ensures { result.now ≡ self.now.route }
    {
        &self.route
    }

    /// Its route, which is taken out of it.
    pub fn into_route(self) -> SharedRoute
        ensures { result ≡ self.route }
    {
        self.route
    }
}

// The route that an edge gives its importer.
fn over(
    alloc: Global,
    srp: &Srp,
    labels: &SharedLabels,
    edge: &Edge,
) -> Result<Option<SharedRoute>, NoMemory>
    requires edge { IsEdgeOf srp.now edge.now }
    requires labels { AreLabels srp.now labels.now }
    ensures { IfOk result (λ route. route ≡ over srp.now labels.now edge.now) }
{
    let own = srp.numbers()[edge.importer as usize];
    match &labels.as_slice()[edge.exporter as usize] {
        None => Ok(None),
        Some(from) => {
            let number = srp.numbers()[edge.exporter as usize];
            let act = &srp.acts()[edge.act as usize];
            route_by(alloc, act, number, own, from)
        }
    }
}

// Puts a route last, if there is one.
fn add(
    found: &mut Vec<SharedCandidate>,
    edge: Option<u32>,
    route: Option<SharedRoute>,
) -> Result<(), NoMemory>
    ensures { OnOk result (found.new.items ≡ found.old.items ++ candidate_of edge route) }
{
    if let Some(route) = route {
        found.push(SharedCandidate { edge, route })?;
    }
    Ok(())
}

// A label whose path shares nothing yet.
fn shared_label(alloc: Global, label: &Option<Route>) -> Result<Option<SharedRoute>, NoMemory>
    ensures { IfOk result (λ shared. shared ≡ label.now) }
{
    match label {
        None => Ok(None),
        Some(route) => Ok(Some(SharedRoute::from_route(alloc, route)?)),
    }
}

// The initial route as a candidate, if there is one.
fn initial_candidate(
    alloc: Global,
    srp: &Srp,
    router: u32,
) -> Result<Vec<SharedCandidate>, NoMemory>
    requires { router < count srp.now }
    ensures { IfOk result (λ found. found.items ≡ candidate_of None (initial srp.now router)) }
{
    let _known = srp.count();
    let route = shared_label(alloc, &srp.init()[router as usize])?;
    let mut found = Vec::new(alloc);
    add(&mut found, None, route)?;
    Ok(found)
}

/// The routes that a router may take from the labels, those that `Srp::candidates` gives.
pub fn candidates(
    alloc: Global,
    srp: &Srp,
    labels: &SharedLabels,
    router: u32,
) -> Result<Vec<SharedCandidate>, NoMemory>
    requires router { router < count srp.now }
    requires labels { AreLabels srp.now labels.now }
    ensures list { IfOk result (λ found. found.items ≡ candidates srp.now labels.now router) }
    ensures routes { IfOk result (λ found. All (λ candidate. IsRouteOf srp.now.protocol candidate.route) found.items) }
{
    let mut found = initial_candidate(alloc, srp, router)?;
    let _known = srp.count();
    let edges = srp.edges();
    let (first, end) = own_edges(edges, router);
    for place in first..end {
        let route = over(alloc, srp, labels, &edges[place])?;
        add(&mut found, Some(place as u32), route)?;
    }
    Ok(found)
}
