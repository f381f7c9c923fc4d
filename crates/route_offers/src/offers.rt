//! What an edge gives its importer.

ghost use Rattle.std.specs.Prelude.{◌≡◌, ◌+◌, ◌<◌, ◌||◌, suc, IfOk, Some, length, nat_eq, bytes_eq, is_some};
ghost use Rattle.std.specs.List.{list_all};
ghost use Rattle.srp_core.specs.Routes.{is_on};
ghost use Rattle.std.specs.Option.{option_and_then};
ghost use Rattle.srp_core.specs.Acts.{step_by, prepended};
ghost use Rattle.srp_core.specs.Candidates.{over, passed};
ghost use Rattle.srp_core.specs.Problem.{number, IsEdgeOf};
ghost use Rattle.srp_core.specs.Stability.{label, AreLabels};
ghost use Rattle.route_offers.specs.Offers.{offered, gives};

use base_kit::{Edge, NoMemory};
use route_maps::{Imported, import};
use srp_core::{Act, Labels, Route, Srp};
use std::alloc::Global;

/// What an edge gives its importer: nothing, or in BGP what it imports, and in OSPF a cost.
#[derive(Drop)]
pub enum Offer {
    Nothing,
    Import(Imported),
    Cost(u32),
}

// Whether the own number is on a path behind that of the exporter (RFC 4271 section 9.1.2).
fn loops(exporter: u32, own: u32, path: &[u32]) -> bool
    ensures { result ≡ (nat_eq exporter own || is_on own path.now) }
{
    exporter == own || path.contains(&own)
}

// What an act makes of the route of the exporter with that number, unless the own number is on the path.
#[tactic(auto, unfolding(srp_core::specs::Acts::step_by, srp_core::specs::Acts::import_by))]
fn offer_by(
    alloc: Global,
    act: &Act,
    exporter: u32,
    own: u32,
    from: &Route,
) -> Result<Offer, NoMemory>
    ensures exact { IfOk result (λ offer. offered offer (Some from.now) exporter ≡ option_and_then (passed own) (step_by act.now exporter from.now)) }
    ensures gives { IfOk result (λ offer. gives offer ≡ is_some (option_and_then (passed own) (step_by act.now exporter from.now))) }
{
    match (act, from) {
        (Act::Import { out, sends, into }, Route::Bgp { path, comms, .. }) => {
            if loops(exporter, own, path.as_slice()) {
                return Ok(Offer::Nothing);
            }
            match import(alloc, out, *sends, into, comms)? {
                Some(imported) => Ok(Offer::Import(imported)),
                None => Ok(Offer::Nothing),
            }
        }
        (Act::Cost(cost), Route::Ospf { cost: other }) => {
            let sum = u64::from(*cost) + u64::from(*other);
            if sum > 4294967295 {
                Ok(Offer::Nothing)
            } else {
                Ok(Offer::Cost(sum as u32))
            }
        }
        (Act::Import { .. }, Route::Ospf { .. }) => Ok(Offer::Nothing),
        (Act::Cost(_), Route::Bgp { .. }) => Ok(Offer::Nothing),
    }
}

/// What an edge gives its importer.
pub fn offer_over(alloc: Global, srp: &Srp, labels: &Labels, edge: &Edge) -> Result<Offer, NoMemory>
    requires edge { IsEdgeOf srp.now edge.now }
    requires labels { AreLabels srp.now labels.now }
    ensures exact { IfOk result (λ offer. offered offer (label labels.now edge.now.exporter) (number srp.now edge.now.exporter) ≡ over srp.now labels.now edge.now) }
    ensures gives { IfOk result (λ offer. gives offer ≡ is_some (over srp.now labels.now edge.now)) }
{
    match &labels.as_slice()[edge.exporter as usize] {
        None => Ok(Offer::Nothing),
        Some(from) => {
            let own = srp.numbers()[edge.importer as usize];
            let exporter = srp.numbers()[edge.exporter as usize];
            let act = &srp.acts()[edge.act as usize];
            offer_by(alloc, act, exporter, own, from)
        }
    }
}

impl Offer {
    ghost use Rattle.std.specs.Prelude.{◌≡◌};
    ghost use Rattle.route_offers.specs.Offers.{gives};

    /// Whether it gives a route.
    pub fn gives(&self) -> bool
        ensures { result ≡ gives self.now }
    {
        match self {
            Offer::Nothing => false,
            Offer::Import(_) => true,
            Offer::Cost(_) => true,
        }
    }
}

fn are_all(path: &[u32], number: u32) -> bool
    ensures { result ≡ list_all (λ other. nat_eq other number) path.now }
{
    path.iter().all(|other| *other == number)
}

/// Whether a path begins with the number, one time more than the count, and goes on as another path.
pub fn is_lengthened(path: &[u32], number: u32, adds: u8, rest: &[u32]) -> bool
    ensures { result ≡ bytes_eq path.now (prepended (suc adds) number rest.now) }
{
    let front = adds as usize + 1;
    if path.len() < front {
        return false;
    }
    if !are_all(&path[..front], number) {
        return false;
    }
    &path[front..] == rest
}

/// The length of a path of that length behind a number, one time more than the count.
pub fn grown(length: usize, adds: u8) -> u128
    ensures { result ≡ length + suc adds }
{
    length as u128 + u128::from(adds) + 1
}
