//! The board before any router is settled.

ghost use Rattle.std.specs.Prelude.{◌≡◌, ◌∷◌, [], ℕ, ◌<◌, IfOk, None, length, replicate, slice_index_or};
ghost use Rattle.srp_core.specs.Problem.{count, initial};
ghost use Rattle.solution_search.specs.Boards.{best_at, state_of, pending_of, Fits, IsBoard};
ghost use Rattle.solution_search.specs.Offers.{OffersRoute};

use crate::bests::Best;
use crate::board::Board;
use crate::lookups::Lookups;
use crate::offers::offer_of;
use base_kit::NoMemory;
use shared_routes::{SharedLabels, SharedRoute};
use srp_core::Route;

fn no_labels(lookups: &Lookups) -> Result<SharedLabels, NoMemory>
    ensures { IfOk result (λ labels. labels ≡ replicate (count lookups.now) None) }
{
    let mut labels = SharedLabels::new(lookups.alloc);
    for _router in 0..lookups.srp.count() {
        labels.push(None)?;
    }
    Ok(labels)
}

fn no_waits(lookups: &Lookups) -> Result<Vec<Option<u32>>, NoMemory>
    ensures { IfOk result (λ waits. waits.items ≡ replicate (count lookups.now) None) }
{
    let mut waits = Vec::new(lookups.alloc);
    for _router in 0..lookups.srp.count() {
        waits.push(None)?;
    }
    Ok(waits)
}

fn first_best(lookups: &Lookups, initial: &Option<Route>) -> Result<Option<Best>, NoMemory>
    ensures { IfOk result (OffersRoute lookups.now initial.now) }
{
    match initial {
        None => Ok(None),
        Some(route) => {
            let route = SharedRoute::from_route(lookups.alloc, route)?;
            Ok(Some(offer_of(lookups, route)?))
        }
    }
}

fn first_bests(lookups: &Lookups) -> Result<Vec<Option<Best>>, NoMemory>
    ensures total { IfOk result (λ bests. length bests.items ≡ count lookups.now) }
    ensures each { IfOk result (λ bests. (u : ℕ) → u < count lookups.now → OffersRoute lookups.now (initial lookups.now u) (best_at bests.items u)) }
{
    let _known = lookups.srp.count();
    let mut bests = Vec::new(lookups.alloc);
    for initial in lookups.srp.init() {
        bests.push(first_best(lookups, initial)?)?;
    }
    Ok(bests)
}

/// No router is settled, and each that originates is offered its initial route.
pub(crate) fn start(lookups: &Lookups) -> Result<Board, NoMemory>
    ensures board { IfOk result (IsBoard lookups.now) }
    ensures labels { IfOk result (λ board. board.labels ≡ replicate (count lookups.now) None) }
    ensures waits { IfOk result (λ board. board.waits.items ≡ replicate (count lookups.now) None) }
    ensures changes { IfOk result (λ board. board.changes.items ≡ []) }
    ensures tie { IfOk result (λ board. board.tie ≡ None) }
{
    let labels = no_labels(lookups)?;
    let waits = no_waits(lookups)?;
    let bests = first_bests(lookups)?;
    let changes = Vec::new(lookups.alloc);
    Ok(Board {
        labels,
        waits,
        bests,
        changes,
        tie: None,
    })
}
