//! What an act makes of a route.

ghost use Rattle.std.specs.Prelude.{◌≡◌, IfOk, option_and_then};
ghost use Rattle.srp_core.specs.Acts.{step_by};
ghost use Rattle.srp_core.specs.Candidates.{passed};

use crate::routes::{RouteParts, SharedRoute};
use base_kit::NoMemory;
use route_maps::import;
use srp_core::Act;
use std::alloc::Global;

// What an act makes of the route of the exporter with that number, before the loop check.
#[tactic(auto, unfolding(srp_core::specs::Acts::step_by, srp_core::specs::Acts::import_by))]
fn step(
    alloc: Global,
    act: &Act,
    number: u32,
    route: &SharedRoute,
) -> Result<Option<SharedRoute>, NoMemory>
    ensures { IfOk result (λ stepped. stepped ≡ step_by act.now number route.now) }
{
    match (act, route.parts()) {
        (Act::Import { out, sends, into }, RouteParts::Bgp { path, comms, .. }) => {
            match import(alloc, out, *sends, into, comms)? {
                None => Ok(None),
                Some(imported) => {
                    let path = path.lengthened(alloc, number, imported.adds)?;
                    Ok(Some(SharedRoute::from_parts(RouteParts::Bgp {
                        lp: imported.lp,
                        path,
                        comms: imported.comms,
                    })))
                }
            }
        }
        (Act::Cost(cost), RouteParts::Ospf { cost: other }) => {
            let sum = u64::from(*cost) + u64::from(*other);
            if sum > 4294967295 {
                Ok(None)
            } else {
                Ok(Some(SharedRoute::from_parts(RouteParts::Ospf { cost: sum as u32 })))
            }
        }
        (Act::Import { .. }, RouteParts::Ospf { .. }) => Ok(None),
        (Act::Cost(_), RouteParts::Bgp { .. }) => Ok(None),
    }
}

// The route, unless the importer's own number is on its path (RFC 4271 section 9.1.2).
fn without_loop(route: Option<SharedRoute>, own: u32) -> Option<SharedRoute>
    ensures { result ≡ option_and_then (passed own) route }
{
    match route {
        Some(route) => if route.has_on_path(own) {
            None
        } else {
            Some(route)
        },
        None => None,
    }
}

/// The route that an act gives the router with the AS number `own` from the route of the router with the
/// AS number `number`. In BGP that number stands before the path, one time more than the count of the
/// import; there is none where the import is none or where `own` is on the new path (RFC 4271 section
/// 9.1.2). In OSPF the cost is added; there is none where the sum exceeds 4294967295.
pub fn route_by(
    alloc: Global,
    act: &Act,
    number: u32,
    own: u32,
    route: &SharedRoute,
) -> Result<Option<SharedRoute>, NoMemory>
    ensures { IfOk result (λ given. given ≡ option_and_then (passed own) (step_by act.now number route.now)) }
{
    let stepped = step(alloc, act, number, route)?;
    Ok(without_loop(stepped, own))
}
