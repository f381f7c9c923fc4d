//! Routes compared by their keys.

ghost use Rattle.std.specs.Prelude.{◌≡◌, IfOk, nat_eq};
ghost use Rattle.std.specs.HashSet.{contains};
ghost use Rattle.std.specs.Ordering.{nat_cmp};
ghost use Rattle.std.specs.Cmp.Lexicographic.{slice_cmp};
ghost use Rattle.srp_core.specs.Routes.{path_of, chosen};
ghost use Rattle.route_run.specs.Activations.{beats};

use base_kit::NoMemory;
use route_keys::{LoneNumbers, lone_on, path_of};
use shared_routes::{SharedRoute, comms_of, preference_of, size_of};
use srp_core::Route;
use std::alloc::Global;
use std::cmp::Ordering;

// How the numbers of lone routers on two paths compare. They are not sought on equal paths.
fn compare_paths(
    alloc: Global,
    lone: &LoneNumbers,
    route: &Route,
    other: &Route,
) -> Result<Ordering, NoMemory>
    ensures { IfOk result (λ order. order ≡ slice_cmp nat_cmp (chosen (contains nat_eq lone.now) (path_of route.now)) (chosen (contains nat_eq lone.now) (path_of other.now))) }
{
    if path_of(route) == path_of(other) {
        return Ok(Ordering::Equal);
    }
    let first = lone_on(alloc, lone, route)?;
    let second = lone_on(alloc, lone, other)?;
    Ok(first.cmp(&second))
}

// The same of paths that share their tails. Where no router is lone, they are not looked at.
fn compare_lone(
    alloc: Global,
    lone: &LoneNumbers,
    route: &SharedRoute,
    other: &SharedRoute,
) -> Result<Ordering, NoMemory>
    ensures { IfOk result (λ order. order ≡ slice_cmp nat_cmp (chosen (contains nat_eq lone.now) (path_of route.now)) (chosen (contains nat_eq lone.now) (path_of other.now))) }
{
    if lone.is_empty() {
        return Ok(Ordering::Equal);
    }
    let route = route.plain(alloc)?;
    let other = other.plain(alloc)?;
    compare_paths(alloc, lone, &route, &other)
}

/// Whether the first route has the better key, by the numbers of lone routers. These are looked at where
/// all else is equal.
#[tactic(auto, unfolding(srp_core::specs::Routes::compare_keys))]
pub(crate) fn beats(
    alloc: Global,
    lone: &LoneNumbers,
    route: &SharedRoute,
    other: &SharedRoute,
) -> Result<bool, NoMemory>
    ensures { IfOk result (λ better. better ≡ beats (contains nat_eq lone.now) route.now other.now) }
{
    let preference = preference_of(route);
    let other_preference = preference_of(other);
    if preference != other_preference {
        return Ok(other_preference < preference);
    }
    let size = size_of(route);
    let other_size = size_of(other);
    if size != other_size {
        return Ok(size < other_size);
    }
    match comms_of(route).cmp(&comms_of(other)) {
        Ordering::Less => Ok(true),
        Ordering::Greater => Ok(false),
        Ordering::Equal => {
            let order = compare_lone(alloc, lone, route, other)?;
            Ok(order == Ordering::Less)
        }
    }
}
