//! Whether an edge gives its importer a route that ties with its label.

ghost use Rattle.std.specs.Prelude.{◌≡◌, ◌+◌, ◌<◌, suc, [], IfOk, Some, length, nat_eq, bytes_eq};
ghost use Rattle.std.specs.HashSet.{contains};
ghost use Rattle.srp_core.specs.Candidates.{over};
ghost use Rattle.srp_core.specs.Problem.{number, is_lone_number, IsEdgeOf};
ghost use Rattle.srp_core.specs.Routes.{path_of, chosen};
ghost use Rattle.srp_core.specs.Stability.{label, AreLabels};
ghost use Rattle.route_keys.specs.Keys.{key, key_with};
ghost use Rattle.route_offers.specs.declared.offers.Offer.TheVariants.{Import};
ghost use Rattle.route_offers.specs.Lone.{IsLoneOf};
ghost use Rattle.route_offers.specs.Offers.{offered, with_lone};
ghost use Rattle.srp_questions.specs.Ties.{same_key, has_key_of};

use base_kit::{Edge, NoMemory, NumSet};
use route_keys::{comms_of, preference_of, size_of};
use route_maps::Imported;
use route_offers::{Lone, Offer, grown, offer_over};
use srp_core::{Labels, Route, Srp};
use std::alloc::Global;

// Whether the lone numbers of a path, whose first number is a lone router's or not, are these.
fn has_lone(is_lone: bool, number: u32, rest: &NumSet, other: &NumSet) -> Result<bool, NoMemory>
    ensures { IfOk result (λ same. same ≡ bytes_eq (with_lone is_lone number rest.now) other.now) }
{
    if !is_lone {
        return Ok(rest.as_slice() == other.as_slice());
    }
    let mut set = rest.copy()?;
    set.add(number)?;
    Ok(set.as_slice() == other.as_slice())
}

// Whether a route with these parts of its key has that of the label. The numbers of lone routers are
// compared where all else is equal.
fn has_key(
    lp: u32,
    size: u128,
    comms: &[u32],
    is_lone: bool,
    number: u32,
    rest: &NumSet,
    route: &Route,
    other: &NumSet,
) -> Result<bool, NoMemory>
    ensures { IfOk result (λ same. same ≡ same_key (key lp size comms.now (with_lone is_lone number rest.now)) (key_with route.now other.now)) }
{
    if lp != preference_of(route) {
        return Ok(false);
    }
    if size != u128::from(size_of(route)) {
        return Ok(false);
    }
    if comms == comms_of(route) {
        has_lone(is_lone, number, rest, other)
    } else {
        Ok(false)
    }
}

// Whether the import from a path has the key.
fn import_ties(
    lone: &Lone,
    imported: &Imported,
    exporter: u32,
    path: &[u32],
    rest: &NumSet,
    route: &Route,
    other: &NumSet,
) -> Result<bool, NoMemory>
    ensures { IfOk result (λ same. same ≡ same_key (key imported.now.lp (length path.now + suc imported.now.adds) imported.now.comms (with_lone (contains nat_eq lone.now.numbers exporter) exporter rest.now)) (key_with route.now other.now)) }
{
    let is_lone = lone.numbers.contains(&exporter);
    has_key(
        imported.lp,
        grown(path.len(), imported.adds),
        imported.comms.as_slice(),
        is_lone,
        exporter,
        rest,
        route,
        other,
    )
}

// Whether the import over an edge, from the label of its exporter, has the key.
fn import_over_ties(
    srp: &Srp,
    labels: &Labels,
    lone: &Lone,
    edge: &Edge,
    imported: &Imported,
    from: &Route,
    route: &Route,
    other: &NumSet,
) -> Result<bool, NoMemory>
    requires edge { IsEdgeOf srp.now edge.now }
    requires labels { AreLabels srp.now labels.now }
    requires lone { IsLoneOf srp.now labels.now lone.now }
    requires from { label labels.now edge.now.exporter ≡ Some from.now }
    requires other { other.now ≡ chosen (is_lone_number srp.now) (path_of route.now) }
    ensures { IfOk result (λ ties. ties ≡ has_key_of srp.now route.now (offered (Import imported.now) (Some from.now) (number srp.now edge.now.exporter))) }
{
    match from {
        Route::Bgp { path, .. } => {
            let exporter = srp.numbers()[edge.exporter as usize];
            let rest = &lone.paths.as_slice()[edge.exporter as usize];
            import_ties(
                lone,
                imported,
                exporter,
                path.as_slice(),
                rest,
                route,
                other,
            )
        }
        Route::Ospf { .. } => Ok(false),
    }
}

// Whether a cost has the key.
fn cost_ties(alloc: Global, cost: u32, route: &Route, other: &NumSet) -> Result<bool, NoMemory>
    ensures { IfOk result (λ ties. ties ≡ same_key (key 0 cost [] []) (key_with route.now other.now)) }
{
    let none = NumSet::new(alloc);
    has_key(0, u128::from(cost), &[], false, 0, &none, route, other)
}

/// Whether the edge gives a route that has the key of the label of its importer. `other` has the
/// numbers of lone routers on the label's path.
pub(crate) fn ties_over(
    alloc: Global,
    srp: &Srp,
    labels: &Labels,
    lone: &Lone,
    edge: &Edge,
    route: &Route,
    other: &NumSet,
) -> Result<bool, NoMemory>
    requires edge { IsEdgeOf srp.now edge.now }
    requires labels { AreLabels srp.now labels.now }
    requires lone { IsLoneOf srp.now labels.now lone.now }
    requires other { other.now ≡ chosen (is_lone_number srp.now) (path_of route.now) }
    ensures { IfOk result (λ ties. ties ≡ has_key_of srp.now route.now (over srp.now labels.now edge.now)) }
{
    match offer_over(alloc, srp, labels, edge)? {
        Offer::Nothing => Ok(false),
        Offer::Cost(cost) => cost_ties(alloc, cost, route, other),
        Offer::Import(imported) => match &labels.as_slice()[edge.exporter as usize] {
            Some(from) => import_over_ties(srp, labels, lone, edge, &imported, from, route, other),
            None => Ok(false),
        },
    }
}
