//! What a router chooses among its candidates.

ghost use Rattle.std.specs.Prelude.{◌≡◌, ◌+◌, ◌<◌, IfOk, MatchOption, length, nat_eq};
ghost use Rattle.std.specs.HashSet.{contains};
ghost use Rattle.route_keys.specs.Same.{same_route};
ghost use Rattle.route_run.specs.Activations.{beats, is_held, is_still_best, chosen_of};
ghost use Rattle.route_run.specs.Choices.{is_better, IsBestUpto, IsChoice};

use crate::comparing::beats;
use base_kit::NoMemory;
use route_keys::{LoneNumbers, same_route};
use shared_routes::{SharedCandidate, SharedRoute};
use srp_core::Route;
use std::alloc::Global;

/// What a router does with its label.
#[derive(Drop)]
pub(crate) enum Choice {
    /// It keeps the one that it has.
    Keep,
    /// It takes another one.
    Take(Option<SharedRoute>),
}

// Whether a candidate has a better key than a route.
fn beats_route(
    alloc: Global,
    lone: &LoneNumbers,
    candidate: &SharedCandidate,
    route: &SharedRoute,
) -> Result<bool, NoMemory>
    ensures { IfOk result (λ better. better ≡ beats (contains nat_eq lone.now) candidate.now.route route.now) }
{
    beats(alloc, lone, candidate.route(), route)
}

fn is_better(
    alloc: Global,
    lone: &LoneNumbers,
    candidate: &SharedCandidate,
    other: &SharedCandidate,
) -> Result<bool, NoMemory>
    ensures { IfOk result (λ better. better ≡ is_better (contains nat_eq lone.now) candidate.now other.now) }
{
    beats_route(alloc, lone, candidate, other.route())
}

// The place of the best candidate so far, or of the next one where that is better.
fn better_place(
    alloc: Global,
    lone: &LoneNumbers,
    candidates: &[SharedCandidate],
    best: usize,
    place: usize,
) -> Result<usize, NoMemory>
    requires best { IsBestUpto (contains nat_eq lone.now) candidates.now place best }
    requires place { place < length candidates.now }
    ensures { IfOk result (IsBestUpto (contains nat_eq lone.now) candidates.now (place + 1)) }
{
    if is_better(alloc, lone, &candidates[place], &candidates[best])? {
        Ok(place)
    } else {
        Ok(best)
    }
}

// The place of the first candidate of best key, or None where there is no candidate.
fn first_best(
    alloc: Global,
    lone: &LoneNumbers,
    candidates: &[SharedCandidate],
) -> Result<Option<usize>, NoMemory>
    ensures { IfOk result (λ best. MatchOption best (length candidates.now ≡ 0) (IsBestUpto (contains nat_eq lone.now) candidates.now (length candidates.now))) }
{
    if candidates.is_empty() {
        return Ok(None);
    }
    let mut best = 0;
    for place in 1..candidates.len() {
        best = better_place(alloc, lone, candidates, best, place)?;
    }
    Ok(Some(best))
}

// Whether a candidate has the same route as a plain one.
fn has_route(alloc: Global, candidate: &SharedCandidate, route: &Route) -> Result<bool, NoMemory>
    ensures { IfOk result (λ same. same ≡ same_route candidate.now.route route.now) }
{
    let other = candidate.route().plain(alloc)?;
    Ok(same_route(&other, route))
}

// Whether a candidate among these has it.
fn is_plain_held(
    alloc: Global,
    candidates: &[SharedCandidate],
    route: &Route,
) -> Result<bool, NoMemory>
    ensures { IfOk result (λ held. held ≡ is_held candidates.now route.now) }
{
    for candidate in candidates {
        if has_route(alloc, candidate, route)? {
            return Ok(true);
        }
    }
    Ok(false)
}

fn is_held(
    alloc: Global,
    candidates: &[SharedCandidate],
    route: &SharedRoute,
) -> Result<bool, NoMemory>
    ensures { IfOk result (λ held. held ≡ is_held candidates.now route.now) }
{
    let plain = route.plain(alloc)?;
    let held = is_plain_held(alloc, candidates, &plain)?;
    Ok(held)
}

// Whether the label is a candidate of best key, which is that of `best`.
fn is_kept(
    alloc: Global,
    lone: &LoneNumbers,
    candidates: &[SharedCandidate],
    best: usize,
    label: &Option<SharedRoute>,
) -> Result<bool, NoMemory>
    requires { IsBestUpto (contains nat_eq lone.now) candidates.now (length candidates.now) best }
    ensures { IfOk result (λ kept. kept ≡ is_still_best (contains nat_eq lone.now) candidates.now label.now) }
{
    match label {
        Some(route) => {
            if beats_route(alloc, lone, &candidates[best], route)? {
                return Ok(false);
            }
            Ok(is_held(alloc, candidates, route)?)
        }
        None => Ok(false),
    }
}

/// What a router of that label chooses among its candidates.
pub(crate) fn choose(
    alloc: Global,
    lone: &LoneNumbers,
    candidates: Vec<SharedCandidate>,
    label: &Option<SharedRoute>,
) -> Result<Choice, NoMemory>
    ensures { IfOk result (IsChoice (chosen_of (contains nat_eq lone.now) candidates.items label.now) label.now) }
{
    match first_best(alloc, lone, candidates.as_slice())? {
        None => match label {
            Some(_) => Ok(Choice::Take(None)),
            None => Ok(Choice::Keep),
        },
        Some(best) => {
            if is_kept(alloc, lone, candidates.as_slice(), best, label)? {
                return Ok(Choice::Keep);
            }
            let mut candidates = candidates;
            let candidate = candidates.swap_remove(best);
            Ok(Choice::Take(Some(candidate.into_route())))
        }
    }
}
