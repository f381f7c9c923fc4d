//! Chains of forwarding, found from their ends: a router comes behind those to whom it forwards.

ghost use Rattle.std.specs.Prelude.{◌≡◌, ◌<◌, ◌+◌, ◌^◌, ◌≤◌, ◌&&◌, ◌||◌, ℕ, All, IfOk, MatchBool, length, slice_index, map};
ghost use Rattle.std.specs.List.{list_any};
ghost use Rattle.srp_core.specs.Problem.{count};
ghost use Rattle.srp_core.specs.Stability.{AreLabels};
ghost use Rattle.srp_questions.specs.NextHops.{AreNextHops};
ghost use Rattle.srp_questions.specs.Walks.{AreOrderedRanks, IsLongest, longest_over, is_marked, Reaches};

use crate::forwarding::next_hops;
use crate::order::{Rank, ranks_by_size};
use base_kit::{List, NoMemory, NumSet};
use shared_routes::SharedLabels;
use srp_core::Srp;
use std::alloc::Global;

// One hop more than the longest of the chains from these routers, 0 where there are none.
fn longest_over(lengths: &[u32], next: &NumSet) -> u32
    requires inside { All (λ router. router < length lengths.now) next.now }
    requires few { All (λ hops. hops + 1 < 2 ^ 32) lengths.now }
    ensures { result ≡ longest_over lengths.now next.now }
{
    let mut most = 0;
    for router in next.as_slice() {
        most = most.max(lengths[*router as usize] + 1);
    }
    most
}

// How many hops the longest chain from each router has.
fn longest_by_rank(
    alloc: Global,
    srp: &Srp,
    labels: &SharedLabels,
    hops: &List<NumSet>,
    ranks: &[Rank],
) -> Result<Vec<u32>, NoMemory>
    requires labels { AreLabels srp.now labels.now }
    requires hops { AreNextHops srp.now labels.now hops.now }
    requires ranks { AreOrderedRanks labels.now ranks.now }
    ensures total { IfOk result (λ lengths. length lengths.items ≡ count srp.now) }
    ensures longest { IfOk result (λ lengths. (u : ℕ) → u < count srp.now → IsLongest srp.now labels.now u (slice_index lengths.items u)) }
{
    let mut lengths = vec![in alloc; 0; srp.count() as usize]?;
    let hops = hops.as_slice();
    for rank in ranks {
        let router = rank.router as usize;
        lengths[router] = longest_over(&lengths, &hops[router]);
    }
    Ok(lengths)
}

/// How many hops the longest chain of forwarding from each router has.
pub(crate) fn longest_chains(
    alloc: Global,
    srp: &Srp,
    labels: &SharedLabels,
) -> Result<Vec<u32>, NoMemory>
    requires { AreLabels srp.now labels.now }
    ensures total { IfOk result (λ lengths. length lengths.items ≡ count srp.now) }
    ensures longest { IfOk result (λ lengths. (u : ℕ) → u < count srp.now → IsLongest srp.now labels.now u (slice_index lengths.items u)) }
{
    let _known = srp.count();
    let hops = next_hops(alloc, srp, labels)?;
    let ranks = ranks_by_size(alloc, labels)?;
    longest_by_rank(alloc, srp, labels, &hops, &ranks)
}

fn is_any_marked(marks: &[bool], routers: &NumSet) -> bool
    requires { All (λ router. router < length marks.now) routers.now }
    ensures { result ≡ list_any (is_marked marks.now) routers.now }
{
    for router in routers.as_slice() {
        if marks[*router as usize] {
            return true;
        }
    }
    false
}

// Which routers are marked in both lists.
fn marked_in_both(alloc: Global, first: &[bool], second: &[bool]) -> Result<Vec<bool>, NoMemory>
    requires { length second.now ≡ length first.now }
    ensures total { IfOk result (λ both. length both.items ≡ length first.now) }
    ensures each { IfOk result (λ both. (u : ℕ) → u < length first.now → is_marked both.items u ≡ (is_marked first.now u && is_marked second.now u)) }
{
    let mut both = Vec::new(alloc);
    for router in 0..first.len() {
        both.push(first[router] && second[router])?;
    }
    Ok(both)
}

// Whether a router reaches a goal, where it goes on to routers that do, or to none.
fn reaches(is_allowed: bool, is_goal: bool, goes_on: bool) -> bool
    ensures { result ≡ (is_allowed && (is_goal || goes_on)) }
{
    is_allowed && (is_goal || goes_on)
}

// The routers from which a chain goes through allowed routers alone to a goal.
fn reaching_by_rank(
    alloc: Global,
    srp: &Srp,
    labels: &SharedLabels,
    hops: &List<NumSet>,
    ranks: &[Rank],
    allowed: &[bool],
    goals: &[bool],
) -> Result<Vec<bool>, NoMemory>
    requires labels { AreLabels srp.now labels.now }
    requires hops { AreNextHops srp.now labels.now hops.now }
    requires ranks { AreOrderedRanks labels.now ranks.now }
    requires allowed { length allowed.now ≡ count srp.now }
    requires goals { length goals.now ≡ count srp.now }
    ensures total { IfOk result (λ reaching. length reaching.items ≡ count srp.now) }
    ensures each { IfOk result (λ reaching. (u : ℕ) → u < count srp.now → MatchBool (is_marked reaching.items u) (Reaches srp.now labels.now allowed.now goals.now u) (¬ Reaches srp.now labels.now allowed.now goals.now u)) }
{
    let _known = srp.count();
    let mut reaching = marked_in_both(alloc, allowed, goals)?;
    let hops = hops.as_slice();
    for rank in ranks {
        let router = rank.router as usize;
        let goes_on = is_any_marked(&reaching, &hops[router]);
        reaching[router] = reaches(allowed[router], goals[router], goes_on);
    }
    Ok(reaching)
}

/// The routers from which a chain of forwarding goes through allowed routers alone, its ends included, and
/// ends at a goal.
pub(crate) fn reaching(
    alloc: Global,
    srp: &Srp,
    labels: &SharedLabels,
    allowed: &[bool],
    goals: &[bool],
) -> Result<Vec<bool>, NoMemory>
    requires labels { AreLabels srp.now labels.now }
    requires allowed { length allowed.now ≡ count srp.now }
    requires goals { length goals.now ≡ count srp.now }
    ensures total { IfOk result (λ reaching. length reaching.items ≡ count srp.now) }
    ensures each { IfOk result (λ reaching. (u : ℕ) → u < count srp.now → MatchBool (is_marked reaching.items u) (Reaches srp.now labels.now allowed.now goals.now u) (¬ Reaches srp.now labels.now allowed.now goals.now u)) }
{
    let _known = srp.count();
    let hops = next_hops(alloc, srp, labels)?;
    let ranks = ranks_by_size(alloc, labels)?;
    reaching_by_rank(alloc, srp, labels, &hops, &ranks, allowed, goals)
}
