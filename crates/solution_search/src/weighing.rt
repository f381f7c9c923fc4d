//! How good the routes over an act can be at best, which is known before one is built.

ghost use Rattle.std.specs.Prelude.{◌≡◌, ◌<◌, true, length, slice_index_or};
ghost use Rattle.srp_core.specs.declared.route.Act.TheVariants.{Cost as a_cost};
ghost use Rattle.solution_search.specs.Weighing.{AreLonger, AreWorse};

use crate::lookups::Lookups;
use shared_routes::{RouteParts, SharedRoute, preference_of, size_of};
use srp_core::Act;

// Whether each route that the act makes of the exporter's has a greater size than this.
fn are_longer(act: &Act, from: &SharedRoute, size: u64) -> bool
    ensures { result ≡ true → AreLonger act.now from.now size }
{
    match (act, from.parts()) {
        (Act::Import { .. }, RouteParts::Bgp { path, .. }) => size <= path.len() as u64,
        (Act::Cost(cost), RouteParts::Ospf { cost: other }) => {
            size < u64::from(*cost) + u64::from(*other)
        }
        (Act::Import { .. }, RouteParts::Ospf { .. }) => false,
        (Act::Cost(_), RouteParts::Bgp { .. }) => false,
    }
}

/// Whether each route that the act makes of the exporter's is worse than this one by preference and size.
pub(crate) fn are_worse(lookups: &Lookups, act: u32, from: &SharedRoute, best: &SharedRoute) -> bool
    requires { act < length lookups.now.acts }
    ensures { result ≡ true → AreWorse (slice_index_or lookups.now.acts act (a_cost 0)) from.now best.now }
{
    let highest = lookups.highest[act as usize];
    let preference = preference_of(best);
    if highest < preference {
        return true;
    }
    highest == preference && are_longer(&lookups.srp.acts()[act as usize], from, size_of(best))
}
