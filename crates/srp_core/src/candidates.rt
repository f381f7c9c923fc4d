//! The routes that a router may take.

ghost use Rattle.std.specs.Prelude.{◌≡◌, ◌<◌, ◌++◌, ◌∷◌, [], suc, nat_lt, nat_le, All, IfOk, OnOk, Some, None, option_and_then, length};
ghost use Rattle.base_kit.specs.declared.act_graph.Edge.{Edge};
ghost use Rattle.srp_core.specs.Acts.{step_by, prepended};
ghost use Rattle.srp_core.specs.Candidates.{candidates, over, candidate_of, passed, AreOwnEdges};
ghost use Rattle.srp_core.specs.Problem.{count, initial, IsEdgeOf, AreOrdered};
ghost use Rattle.srp_core.specs.Routes.{IsRouteOf, is_on, path_of};
ghost use Rattle.srp_core.specs.Stability.{AreLabels};

use crate::labels::Labels;
use crate::route::{Act, Candidate, Route};
use crate::srp::Srp;
use base_kit::{Edge, List, NoMemory};
use route_maps::import;
use std::alloc::Global;

// The number one time more than the count, and then the path.
fn lengthened(alloc: Global, path: &[u32], number: u32, adds: u8) -> Result<List<u32>, NoMemory>
    ensures { IfOk result (λ longer. longer ≡ prepended (suc adds) number path.now) }
{
    let mut numbers = Vec::new(alloc);
    numbers.push(number)?;
    for _i in 0..adds {
        numbers.push(number)?;
    }
    numbers.extend_from_slice(path)?;
    Ok(List::from_vec(numbers))
}

// What an act makes of the route of the exporter with that number, before the loop check.
#[tactic(auto, unfolding(crate::specs::Acts::step_by, crate::specs::Acts::import_by))]
fn step(alloc: Global, act: &Act, number: u32, route: &Route) -> Result<Option<Route>, NoMemory>
    ensures { IfOk result (λ stepped. stepped ≡ step_by act.now number route.now) }
{
    match (act, route) {
        (Act::Import { out, sends, into }, Route::Bgp { path, comms, .. }) => {
            match import(alloc, out, *sends, into, comms)? {
                None => Ok(None),
                Some(imported) => {
                    let path = lengthened(alloc, path.as_slice(), number, imported.adds)?;
                    Ok(Some(Route::Bgp {
                        lp: imported.lp,
                        path,
                        comms: imported.comms,
                    }))
                }
            }
        }
        (Act::Cost(cost), Route::Ospf { cost: other }) => {
            let sum = u64::from(*cost) + u64::from(*other);
            if sum > 4294967295 {
                Ok(None)
            } else {
                Ok(Some(Route::Ospf { cost: sum as u32 }))
            }
        }
        (Act::Import { .. }, Route::Ospf { .. }) => Ok(None),
        (Act::Cost(_), Route::Bgp { .. }) => Ok(None),
    }
}

// The route, unless the importer's own number is on its path (RFC 4271 section 9.1.2).
fn without_loop(route: Option<Route>, own: u32) -> Option<Route>
    ensures { result ≡ option_and_then (passed own) route }
{
    match route {
        Some(route) => if route.has_on_path(own) {
            None
        } else {
            Some(route)
        },
        None => None,
    }
}

/// The edges of a router, which stand together: the place of the first, and that behind the last. The
/// edges ascend by their importer, as those of `Srp::edges` do.
pub fn own_edges(edges: &[Edge], router: u32) -> (usize, usize)
    requires { AreOrdered edges.now }
    ensures { AreOwnEdges edges.now router result.0 result.1 }
{
    let first = edges.partition_point(
        |edge: &Edge| -> bool
            ensures { result ≡ nat_lt edge.now.importer router }
        { edge.importer < router },
    );
    let end = edges.partition_point(
        |edge: &Edge| -> bool
            ensures { result ≡ nat_le edge.now.importer router }
        { edge.importer <= router },
    );
    (first, end)
}

// Puts the route of an edge last, if it gives one.
fn add(found: &mut List<Candidate>, place: u32, route: Option<Route>) -> Result<(), NoMemory>
    ensures { OnOk result (found.new ≡ found.old ++ candidate_of (Some place) route) }
{
    if let Some(route) = route {
        found.push(Candidate {
            edge: Some(place),
            route,
        })?;
    }
    Ok(())
}

impl Srp {
    // The initial route as a candidate, if there is one.
    fn initial_candidate(&self, router: u32) -> Result<List<Candidate>, NoMemory>
        requires { router < count self.now }
        ensures { IfOk result (λ found. found ≡ candidate_of None (initial self.now router)) }
    {
        let mut found = List::new(self.alloc());
        let _known = self.count();
        if let Some(route) = &self.init()[router as usize] {
            let route = route.copy(self.alloc())?;
            found.push(Candidate { edge: None, route })?;
        }
        Ok(found)
    }

    // The route that an edge gives its importer.
    fn over(&self, labels: &Labels, edge: &Edge) -> Result<Option<Route>, NoMemory>
        requires edge { IsEdgeOf self.now edge.now }
        requires labels { AreLabels self.now labels.now }
        ensures { IfOk result (λ route. route ≡ over self.now labels.now edge.now) }
    {
        let own = self.numbers()[edge.importer as usize];
        match &labels.as_slice()[edge.exporter as usize] {
            None => Ok(None),
            Some(from) => {
                let number = self.numbers()[edge.exporter as usize];
                let act = &self.acts()[edge.act as usize];
                let stepped = step(self.alloc(), act, number, from)?;
                Ok(without_loop(stepped, own))
            }
        }
    }

    /// The routes that a router may take from the labels, one label for each router and each of the
    /// problem's protocol: its initial route first, then one for each of its edges that gives it a
    /// route, by edge. In BGP the exporter's number stands before the path of its label, one time more
    /// than the count of the import, and an edge gives nothing where the import is none or the router's
    /// own number is on the new path (RFC 4271 section 9.1.2). In OSPF the cost of the edge is added,
    /// and an edge gives nothing where the sum exceeds 4294967295.
    pub fn candidates(&self, labels: &Labels, router: u32) -> Result<List<Candidate>, NoMemory>
        requires router { router < count self.now }
        requires labels { AreLabels self.now labels.now }
        ensures list { IfOk result (λ list. list ≡ candidates self.now labels.now router) }
        ensures routes { IfOk result (λ list. All (λ candidate. IsRouteOf self.now.protocol candidate.route) list) }
    {
        let mut found = self.initial_candidate(router)?;
        let _known = self.count();
        let edges = self.edges();
        let (first, end) = own_edges(edges, router);
        for place in first..end {
            let route = self.over(labels, &edges[place])?;
            add(&mut found, place as u32, route)?;
        }
        Ok(found)
    }
}
