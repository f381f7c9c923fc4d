//! The route that an edge gives its importer.

ghost use Rattle.std.specs.Prelude.{◌≡◌, ◌<◌, IfOk, length};
ghost use Rattle.srp_core.specs.Candidates.{over};
ghost use Rattle.srp_core.specs.Problem.{count, is_lone_number};
ghost use Rattle.srp_core.specs.Routes.{chosen, path_of};
ghost use Rattle.solution_search.specs.Offers.{IsOfferOf, OffersRoute};

use crate::bests::Best;
use crate::lookups::Lookups;
use base_kit::{NoMemory, NumSet};
use shared_routes::{SharedLabels, SharedRoute, lone_on, route_by};
use std::alloc::Global;

/// The numbers of lone routers on the path of a route. Where no router is lone, the path is not looked at.
pub(crate) fn lone_of(lookups: &Lookups, route: &SharedRoute) -> Result<NumSet, NoMemory>
    ensures { IfOk result (λ lone. lone ≡ chosen (is_lone_number lookups.now) (path_of route.now)) }
{
    if lookups.lone.is_empty() {
        return Ok(NumSet::new(lookups.alloc));
    }
    lone_on(lookups.alloc, &lookups.lone, route)
}

/// The route as an offer that no other ties with.
pub(crate) fn offer_of(lookups: &Lookups, route: SharedRoute) -> Result<Best, NoMemory>
    ensures { IfOk result (IsOfferOf lookups.now route) }
{
    let lone = lone_of(lookups, &route)?;
    Ok(Best {
        route,
        lone,
        tied: None,
    })
}

// What the exporter's label gives the importer by an act.
fn route_over(
    lookups: &Lookups,
    labels: &SharedLabels,
    exporter: u32,
    importer: u32,
    act: u32,
) -> Result<Option<SharedRoute>, NoMemory>
    requires exporter { exporter < count lookups.now }
    requires importer { importer < count lookups.now }
    requires act { act < length lookups.now.acts }
    requires labels { length labels.now ≡ count lookups.now }
    ensures { IfOk result (λ route. route ≡ over lookups.now labels.now (record { importer = importer; exporter = exporter; act = act; link = 0 })) }
{
    match &labels.as_slice()[exporter as usize] {
        None => Ok(None),
        Some(from) => {
            let own = lookups.srp.numbers()[importer as usize];
            let number = lookups.srp.numbers()[exporter as usize];
            let act = &lookups.srp.acts()[act as usize];
            route_by(lookups.alloc, act, number, own, from)
        }
    }
}

/// What an exporter offers the importer by an act, if it offers anything.
pub(crate) fn offer_over(
    lookups: &Lookups,
    labels: &SharedLabels,
    exporter: u32,
    importer: u32,
    act: u32,
) -> Result<Option<Best>, NoMemory>
    requires exporter { exporter < count lookups.now }
    requires importer { importer < count lookups.now }
    requires act { act < length lookups.now.acts }
    requires labels { length labels.now ≡ count lookups.now }
    ensures { IfOk result (OffersRoute lookups.now (over lookups.now labels.now (record { importer = importer; exporter = exporter; act = act; link = 0 }))) }
{
    match route_over(lookups, labels, exporter, importer, act)? {
        None => Ok(None),
        Some(route) => Ok(Some(offer_of(lookups, route)?)),
    }
}
