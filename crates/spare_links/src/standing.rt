//! How routes over edges stand to the labels of their routers.

ghost use Rattle.std.specs.Prelude.{◌≡◌, ◌&&◌, IfOk, Some, nat_eq, bytes_eq, if◌then◌else◌};
ghost use Rattle.srp_core.specs.Problem.{number, IsEdgeOf};
ghost use Rattle.srp_core.specs.Routes.{preference_of, size_of, comms_of};
ghost use Rattle.srp_core.specs.Stability.{AreLabels};
ghost use Rattle.route_offers.specs.declared.offers.Offer.TheVariants.{Import};
ghost use Rattle.route_offers.specs.Offers.{offered};
ghost use Rattle.spare_links.specs.Standing.{standing_over, standing_to};
ghost use Rattle.spare_links.specs.declared.standing.Standing.TheVariants.{Apart as IsApart, Same as IsSame, Tied as IsTied};

use base_kit::{Edge, NoMemory};
use route_keys::{comms_of, preference_of, size_of};
use route_maps::Imported;
use route_offers::{Offer, grown, offer_over};
use srp_core::{Labels, Route, Srp};
use std::alloc::Global;

/// How a candidate of a router stands to its label, where no router is lone: preference, size and communities decide.
#[derive(Clone, Copy, Debug, PartialEq, Eq)]
pub(crate) enum Standing {
    /// There is none, or its preference or its size is another.
    Apart,
    /// It has the key of the label.
    Same,
    /// It has the preference and the size of the label, and other communities.
    Tied,
}

// How a candidate with these parts of its key stands to a label.
fn standing_of(lp: u32, size: u128, comms: &[u32], route: &Route) -> Standing
    ensures { result ≡ (if nat_eq lp (preference_of route.now) && nat_eq size (size_of route.now) then (if bytes_eq comms.now (comms_of route.now) then IsSame else IsTied) else IsApart) }
{
    if lp != preference_of(route) {
        return Standing::Apart;
    }
    if size != u128::from(size_of(route)) {
        return Standing::Apart;
    }
    if comms == comms_of(route) {
        Standing::Same
    } else {
        Standing::Tied
    }
}

// How the import from the label of the exporter stands.
fn import_standing(
    srp: &Srp,
    edge: &Edge,
    imported: &Imported,
    from: &Route,
    route: &Route,
) -> Standing
    ensures { result ≡ standing_to (offered (Import imported.now) (Some from.now) (number srp.now edge.now.exporter)) (Some route.now) }
{
    match from {
        Route::Bgp { path, .. } => standing_of(
            imported.lp,
            grown(path.as_slice().len(), imported.adds),
            imported.comms.as_slice(),
            route,
        ),
        Route::Ospf { .. } => Standing::Apart,
    }
}

/// How what the edge gives its importer stands to the label.
pub(crate) fn standing_over(
    alloc: Global,
    srp: &Srp,
    labels: &Labels,
    edge: &Edge,
) -> Result<Standing, NoMemory>
    requires edge { IsEdgeOf srp.now edge.now }
    requires labels { AreLabels srp.now labels.now }
    ensures { IfOk result (λ standing. standing ≡ standing_over srp.now labels.now edge.now) }
{
    let Some(route) = &labels.as_slice()[edge.importer as usize] else {
        return Ok(Standing::Apart);
    };
    match offer_over(alloc, srp, labels, edge)? {
        Offer::Nothing => Ok(Standing::Apart),
        Offer::Cost(cost) => Ok(standing_of(0, u128::from(cost), &[], route)),
        Offer::Import(imported) => match &labels.as_slice()[edge.exporter as usize] {
            Some(from) => Ok(import_standing(srp, edge, &imported, from, route)),
            None => Ok(Standing::Apart),
        },
    }
}
