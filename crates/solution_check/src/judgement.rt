//! Whether labels are stable.

ghost use Rattle.std.specs.Prelude.{◌≡◌, ◌≢◌, ◌<◌, ◌≤◌, ℕ, slice_index_or, IfOk, MatchOption, length, All};
ghost use Rattle.std.specs.List.{AllWithin};
ghost use Rattle.base_kit.specs.declared.act_graph.Edge.{Edge};
ghost use Rattle.srp_core.specs.Problem.{count};
ghost use Rattle.srp_core.specs.Stability.{label, AreLabels};
ghost use Rattle.solution_check.specs.Breaks.{HoldsBest, BreaksBy, Judges};
ghost use Rattle.route_offers.specs.Lone.{IsLoneOf};
ghost use Rattle.route_offers.specs.Offers.{AreOwn};
ghost use Rattle.solution_check.specs.Offers.{is_wrong_origin};

use crate::weights::{has_candidate, weigh};
use base_kit::{Edge, NoMemory, Protocol};
use route_keys::same_route;
use route_offers::{Lone, end_of, lone_of_labels};
use srp_core::{Labels, Route, Srp};
use std::alloc::Global;

/// Whether labels are stable.
#[derive(Clone, Copy, Debug, PartialEq, Eq)]
pub enum Answer {
    /// Each router without a candidate has no label, and each other holds a candidate that none beats.
    Stable,
    /// The first router that breaks this, and the first reason that fits: 1 where it originates in BGP
    /// and does not have its initial route, 2 where its label is none of its candidates, 3 where another
    /// candidate beats its label, 4 where it has no label and a candidate.
    Not { router: u32, why: u8 },
}

// Whether a BGP originator has another label than its initial route.
fn is_wrong_origin(protocol: Protocol, initial: &Option<Route>, label: &Option<Route>) -> bool
    ensures { result ≡ is_wrong_origin protocol initial.now label.now }
{
    match (protocol, initial) {
        (Protocol::Bgp, Some(initial)) => match label {
            Some(label) => !same_route(initial, label),
            None => true,
        },
        (Protocol::Bgp, None) => false,
        (Protocol::Ospf, Some(_)) => false,
        (Protocol::Ospf, None) => false,
    }
}

// Why a router breaks stability, by its edges, if it does.
fn judge(
    alloc: Global,
    srp: &Srp,
    labels: &Labels,
    lone: &Lone,
    router: u32,
    edges: &[Edge],
) -> Result<Option<u8>, NoMemory>
    requires router { router < count srp.now }
    requires own { AreOwn srp.now router edges.now }
    requires labels { AreLabels srp.now labels.now }
    requires lone { IsLoneOf srp.now labels.now lone.now }
    ensures { IfOk result (λ why. MatchOption why (HoldsBest srp.now labels.now router) (BreaksBy srp.now labels.now router)) }
{
    let _known = srp.count();
    let label = &labels.as_slice()[router as usize];
    if is_wrong_origin(srp.protocol(), &srp.init()[router as usize], label) {
        return Ok(Some(1));
    }
    match label {
        None => {
            if has_candidate(alloc, srp, labels, router, edges)? {
                return Ok(Some(4));
            }
            Ok(None)
        }
        Some(route) => {
            let weight = weigh(alloc, srp, labels, lone, router, edges, route)?;
            if !weight.held {
                return Ok(Some(2));
            }
            if weight.beaten {
                return Ok(Some(3));
            }
            Ok(None)
        }
    }
}

/// Whether the labels, one for each router and each of the problem's protocol, are stable.
pub fn check(alloc: Global, srp: &Srp, labels: &Labels) -> Result<Answer, NoMemory>
    requires { AreLabels srp.now labels.now }
    ensures { IfOk result (Judges srp.now labels.now) }
{
    let lone = lone_of_labels(alloc, srp, labels)?;
    let edges = srp.edges();
    let mut first = 0;
    for router in 0..srp.count() {
        let end = end_of(edges, router, first);
        match judge(alloc, srp, labels, &lone, router, &edges[first..end])? {
            Some(why) => return Ok(Answer::Not { router, why }),
            None => first = end,
        }
    }
    Ok(Answer::Stable)
}
