//! The best route that a router is offered, and what a further one changes.

ghost use Rattle.std.specs.Prelude.{◌≡◌, ℕ, List, IfOk};
ghost use Rattle.std.specs.Ordering.{nat_cmp};
ghost use Rattle.std.specs.Cmp.Lexicographic.{slice_cmp};
ghost use Rattle.std.specs.declared.cmp.Ordering.TheVariants.{Equal as WeaklyEqual};
ghost use Rattle.srp_core.specs.Routes.{comms_of};
ghost use Rattle.srp_core.specs.Weak.{compare_weak};
ghost use Rattle.route_keys.specs.Keys.{key_with};
ghost use Rattle.solution_search.specs.Bests.{rank_by, rank_of, rank_over, told, joined, replaced, with_tie};

use base_kit::{NoMemory, NumSet};
use shared_routes::{SharedRoute, comms_of, preference_of, size_of};
use std::alloc::Global;
use std::cmp::Ordering;

/// In what two routes of one preference and one size differ.
#[derive(Clone, Copy, Debug, PartialEq, Eq)]
pub enum Difference {
    Communities,
    /// The lone routers on their paths.
    Path,
}

/// The best route that a router is offered, with the numbers of lone routers on its path. Where another
/// offer has the same preference and size and another key, `tied` says in what the two differ.
#[derive(Drop)]
pub(crate) struct Best {
    pub(crate) route: SharedRoute,
    pub(crate) lone: NumSet,
    pub(crate) tied: Option<Difference>,
}

/// How a route compares with another: by preference and size, and where these are equal by the rest of
/// the key.
#[derive(Clone, Copy, Debug, PartialEq, Eq)]
pub(crate) enum Rank {
    Better,
    Equal,
    Worse,
    TiedBetter(Difference),
    TiedWorse(Difference),
}

// By preference, and then by size.
#[tactic(auto, unfolding(srp_core::specs::Weak::compare_weak))]
fn weak_cmp(route: &SharedRoute, other: &SharedRoute) -> Ordering
    ensures { (a b : List ℕ) → result ≡ compare_weak (key_with route.now a) (key_with other.now b) }
{
    let by_preference = preference_of(other).cmp(&preference_of(route));
    by_preference.then(size_of(route).cmp(&size_of(other)))
}

// Where preference and size are equal, by communities and then by lone numbers.
fn rank_of_tied(offer: &Best, route: &SharedRoute, lone: &NumSet) -> Rank
    ensures { result ≡ rank_by WeaklyEqual (slice_cmp nat_cmp (comms_of offer.now.route) (comms_of route.now)) (slice_cmp nat_cmp offer.now.lone lone.now) }
{
    match comms_of(&offer.route).cmp(&comms_of(route)) {
        Ordering::Less => Rank::TiedBetter(Difference::Communities),
        Ordering::Greater => Rank::TiedWorse(Difference::Communities),
        Ordering::Equal => match offer.lone.cmp(lone) {
            Ordering::Less => Rank::TiedBetter(Difference::Path),
            Ordering::Greater => Rank::TiedWorse(Difference::Path),
            Ordering::Equal => Rank::Equal,
        },
    }
}

/// How an offer compares with a route that has these lone numbers on its path.
pub(crate) fn rank_over(offer: &Best, route: &SharedRoute, lone: &NumSet) -> Rank
    ensures { result ≡ rank_over offer.now route.now lone.now }
{
    match weak_cmp(&offer.route, route) {
        Ordering::Less => Rank::Better,
        Ordering::Greater => Rank::Worse,
        Ordering::Equal => rank_of_tied(offer, route, lone),
    }
}

/// Whether a difference is reported already. One of communities covers both.
pub(crate) fn is_told(known: Option<Difference>, by: Difference) -> bool
    ensures { result ≡ told known by }
{
    match (known, by) {
        (None, _) => false,
        (Some(Difference::Communities), _) => true,
        (Some(Difference::Path), Difference::Communities) => false,
        (Some(Difference::Path), Difference::Path) => true,
    }
}

fn joined(known: Option<Difference>, by: Difference) -> Difference
    ensures { result ≡ joined known by }
{
    match known {
        None => by,
        Some(Difference::Communities) => Difference::Communities,
        Some(Difference::Path) => by,
    }
}

fn with_tie(alloc: Global, best: &Best, difference: Difference) -> Result<Best, NoMemory>
    ensures { IfOk result (λ other. other ≡ with_tie best.now difference) }
{
    let route = best.route.copy(alloc)?;
    let lone = best.lone.copy()?;
    Ok(Best {
        route,
        lone,
        tied: Some(difference),
    })
}

/// What stands in the place of the best offer so far once there is a further one. None: it stays.
pub(crate) fn replacement(alloc: Global, best: &Best, offer: Best) -> Result<Option<Best>, NoMemory>
    ensures { IfOk result (λ other. other ≡ replaced (rank_of offer best.now) best.now offer) }
{
    match rank_over(&offer, &best.route, &best.lone) {
        Rank::Better => Ok(Some(offer)),
        Rank::TiedBetter(difference) => Ok(Some(Best {
            route: offer.route,
            lone: offer.lone,
            tied: Some(joined(best.tied, difference)),
        })),
        Rank::TiedWorse(difference) => {
            if is_told(best.tied, difference) {
                return Ok(None);
            }
            Ok(Some(with_tie(alloc, best, difference)?))
        }
        Rank::Equal | Rank::Worse => Ok(None),
    }
}
