//! Whether a question is true in labels.

ghost use Rattle.std.specs.Prelude.{◌≡◌, ◌≢◌, ◌<◌, ◌≤◌, ℕ, All, IfOk, MatchBool, None, length, nat_le, not, is_some, slice_index};
ghost use Rattle.std.specs.List.{list_all};
ghost use Rattle.base_kit.specs.Sets.{has};
ghost use Rattle.srp_core.specs.Problem.{count};
ghost use Rattle.srp_core.specs.Routes.{comms_of};
ghost use Rattle.srp_core.specs.Stability.{label, AreLabels};
ghost use Rattle.srp_questions.specs.Holding.{holds_community, lacks_community};
ghost use Rattle.srp_questions.specs.Questions.{IsWithinHops, PassesThrough, StaysOff, IsTrueIn, IsAskedOf};

use crate::marks::{flags, is_none_marked, origins};
use crate::question::Question;
use crate::walks::{longest_chains, reaching};
use base_kit::{NoMemory, NumSet};
use shared_routes::{SharedLabels, SharedRoute, comms_of};
use srp_core::Srp;
use std::alloc::Global;

fn have_routes(labels: &SharedLabels, routers: &NumSet) -> bool
    requires { All (λ router. router < length labels.now) routers.now }
    ensures { result ≡ list_all (λ router. is_some (label labels.now router)) routers.now }
{
    for router in routers.as_slice() {
        if labels.as_slice()[*router as usize].is_none() {
            return false;
        }
    }
    true
}

fn have_no_routes(labels: &SharedLabels, routers: &NumSet) -> bool
    requires { All (λ router. router < length labels.now) routers.now }
    ensures { result ≡ list_all (λ router. not (is_some (label labels.now router))) routers.now }
{
    for router in routers.as_slice() {
        if labels.as_slice()[*router as usize].is_some() {
            return false;
        }
    }
    true
}

fn has_community(route: &SharedRoute, community: u32) -> bool
    ensures { result ≡ has (comms_of route.now) community }
{
    comms_of(route).contains(&community)
}

// Whether a label that is there holds the community.
fn holds(label: &Option<SharedRoute>, community: u32) -> bool
    ensures { result ≡ holds_community community label.now }
{
    match label {
        Some(route) => has_community(route, community),
        None => true,
    }
}

fn all_hold(labels: &SharedLabels, community: u32, routers: &NumSet) -> bool
    requires { All (λ router. router < length labels.now) routers.now }
    ensures { result ≡ list_all (λ router. holds_community community (label labels.now router)) routers.now }
{
    for router in routers.as_slice() {
        if !holds(&labels.as_slice()[*router as usize], community) {
            return false;
        }
    }
    true
}

// Whether a label does not hold the community, or is not there.
fn lacks(label: &Option<SharedRoute>, community: u32) -> bool
    ensures { result ≡ lacks_community community label.now }
{
    match label {
        Some(route) => !has_community(route, community),
        None => true,
    }
}

fn all_lack(labels: &SharedLabels, community: u32, routers: &NumSet) -> bool
    requires { All (λ router. router < length labels.now) routers.now }
    ensures { result ≡ list_all (λ router. lacks_community community (label labels.now router)) routers.now }
{
    for router in routers.as_slice() {
        if !lacks(&labels.as_slice()[*router as usize], community) {
            return false;
        }
    }
    true
}

fn are_at_most(lengths: &[u32], most: u32, routers: &NumSet) -> bool
    requires { All (λ router. router < length lengths.now) routers.now }
    ensures { result ≡ list_all (λ router. nat_le (slice_index lengths.now router) most) routers.now }
{
    for router in routers.as_slice() {
        if most < lengths[*router as usize] {
            return false;
        }
    }
    true
}

// Whether no chain from one of the routers has more hops.
fn are_within_hops(
    alloc: Global,
    srp: &Srp,
    labels: &SharedLabels,
    most: u32,
    routers: &NumSet,
) -> Result<bool, NoMemory>
    requires labels { AreLabels srp.now labels.now }
    requires routers { All (λ router. router < count srp.now) routers.now }
    ensures { IfOk result (λ holds. MatchBool holds (All (IsWithinHops srp.now labels.now most) routers.now) (¬ All (IsWithinHops srp.now labels.now most) routers.now)) }
{
    let lengths = longest_chains(alloc, srp, labels)?;
    Ok(are_at_most(&lengths, most, routers))
}

// Whether each chain from one of the routers that ends at a router with an initial route has one of the
// way: none of them goes through other routers alone.
fn pass_through(
    alloc: Global,
    srp: &Srp,
    labels: &SharedLabels,
    way: &NumSet,
    routers: &NumSet,
) -> Result<bool, NoMemory>
    requires labels { AreLabels srp.now labels.now }
    requires way { All (λ router. router < count srp.now) way.now }
    requires routers { All (λ router. router < count srp.now) routers.now }
    ensures { IfOk result (λ holds. MatchBool holds (All (PassesThrough srp.now labels.now way.now) routers.now) (¬ All (PassesThrough srp.now labels.now way.now) routers.now)) }
{
    let others = flags(alloc, srp.count(), way, false)?;
    let origins = origins(alloc, srp)?;
    let around = reaching(alloc, srp, labels, &others, &origins)?;
    Ok(is_none_marked(&around, routers))
}

// Whether no chain from one of the routers has one of the way: none ends there.
fn stay_off(
    alloc: Global,
    srp: &Srp,
    labels: &SharedLabels,
    way: &NumSet,
    routers: &NumSet,
) -> Result<bool, NoMemory>
    requires labels { AreLabels srp.now labels.now }
    requires way { All (λ router. router < count srp.now) way.now }
    requires routers { All (λ router. router < count srp.now) routers.now }
    ensures { IfOk result (λ holds. MatchBool holds (All (StaysOff srp.now labels.now way.now) routers.now) (¬ All (StaysOff srp.now labels.now way.now) routers.now)) }
{
    let all = vec![in alloc; true; srp.count() as usize]?;
    let goals = flags(alloc, srp.count(), way, true)?;
    let meeting = reaching(alloc, srp, labels, &all, &goals)?;
    Ok(is_none_marked(&meeting, routers))
}

/// Whether the question is true in the labels, one for each router and each of the problem's protocol.
/// The routers of the question are routers of the problem.
///
/// # Errors
/// Out of memory.
pub fn is_true(
    alloc: Global,
    srp: &Srp,
    labels: &SharedLabels,
    question: &Question,
) -> Result<bool, NoMemory>
    requires labels { AreLabels srp.now labels.now }
    requires asked { IsAskedOf srp.now question.now }
    ensures { IfOk result (λ holds. MatchBool holds (IsTrueIn question.now srp.now labels.now) (¬ IsTrueIn question.now srp.now labels.now)) }
{
    match question {
        Question::Route { routers } => Ok(have_routes(labels, routers)),
        Question::Isolated { routers } => Ok(have_no_routes(labels, routers)),
        Question::Hops { most, routers } => are_within_hops(alloc, srp, labels, *most, routers),
        Question::Through { way, routers } => pass_through(alloc, srp, labels, way, routers),
        Question::Avoids { way, routers } => stay_off(alloc, srp, labels, way, routers),
        Question::Carries { community, routers } => Ok(all_hold(labels, *community, routers)),
        Question::Lacks { community, routers } => Ok(all_lack(labels, *community, routers)),
    }
}
