//! Routes that a router may hold.

ghost use Rattle.std.specs.Prelude.{◌≡◌, ◌≤◌, IfOk, true};
ghost use Rattle.srp_core.specs.declared.route.Route.{Route as ARoute};
ghost use Rattle.srp_core.specs.Routes.{comms_of, size_of};
ghost use Rattle.solution_search.specs.Outlooks.{IsOneForeseen, IsForeseen};

use base_kit::{NoMemory, NumSet};
use shared_routes::{RouteParts, SharedRoute, size_of};
use std::alloc::Global;

/// Routes with these communities, of this size or a larger one.
#[derive(Drop)]
pub(crate) struct Foreseen {
    pub(crate) comms: NumSet,
    pub(crate) size: u64,
}

fn comms_of_route(alloc: Global, route: &SharedRoute) -> Result<NumSet, NoMemory>
    ensures { IfOk result (λ comms. comms ≡ comms_of route.now) }
{
    match route.parts() {
        RouteParts::Bgp { comms, .. } => comms.copy(),
        RouteParts::Ospf { .. } => Ok(NumSet::new(alloc)),
    }
}

/// The communities and the size of a route.
pub(crate) fn foreseen_of(alloc: Global, route: &SharedRoute) -> Result<Foreseen, NoMemory>
    ensures { IfOk result (λ foreseen. IsOneForeseen foreseen route.now) }
{
    let comms = comms_of_route(alloc, route)?;
    let size = size_of(route);
    Ok(Foreseen { comms, size })
}

/// Whether routes with these communities, of this size, are among those of the list.
pub(crate) fn is_among(list: &[Foreseen], comms: &NumSet, size: u64) -> bool
    ensures { result ≡ true → (route : ARoute) → comms.now ≡ comms_of route → size ≤ size_of route → IsForeseen list.now route }
{
    for foreseen in list {
        if foreseen.size <= size && foreseen.comms.as_slice() == comms.as_slice() {
            return true;
        }
    }
    false
}

/// Puts them into the list.
pub(crate) fn add_to(list: &mut Vec<Foreseen>, comms: NumSet, size: u64) -> Result<(), NoMemory> {
    for place in 0..list.len() {
        if list[place].comms.as_slice() == comms.as_slice() {
            list[place].size = list[place].size.min(size);
            return Ok(());
        }
    }
    list.push(Foreseen { comms, size })?;
    Ok(())
}
