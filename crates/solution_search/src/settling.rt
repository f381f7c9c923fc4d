//! A router is settled.

ghost use Rattle.std.specs.Prelude.{◌≡◌, ◌<◌, IfOk, None, Some, length, true};
ghost use Rattle.srp_core.specs.Problem.{count};
ghost use Rattle.srp_core.specs.Stability.{label};
ghost use Rattle.solution_search.specs.Bests.{fresh_of, rank_of};
ghost use Rattle.solution_search.specs.declared.bests.Best.{Best as BestOffer};
ghost use Rattle.solution_search.specs.Boards.{best_at, Fits, Adds, Takes, noted_by, noted_at_take, outcome_of};
ghost use Rattle.solution_search.specs.Queues.{KeepsQueued, Turns};
ghost use Rattle.solution_search.specs.Settled.{HasGiven, HasSpread, HasSettled};
ghost use Rattle.solution_search.specs.declared.settling.Outcome.TheVariants.{Fine as IsFine};

use crate::bests::{Best, Difference, Rank, rank_over, replacement};
use crate::board::{Board, Change, note_tie, put_best};
use crate::lookups::Lookups;
use crate::offers::{lone_of, offer_over};
use crate::queue::Queue;
use crate::weighing::are_worse;
use base_kit::NoMemory;
use shared_routes::SharedRoute;
use std::mem::replace;

/// What a further candidate makes of the labels that are settled.
#[derive(Clone, Copy, Debug, PartialEq, Eq)]
pub(crate) enum Outcome {
    Fine,
    /// It beats the label of its router.
    Upset,
}

// A settled router has a further candidate.
fn judge(board: &mut Board, router: u32, rank: Rank) -> Outcome
    ensures outcome { result ≡ outcome_of rank }
    ensures tie { board.new.tie ≡ noted_by board.old.tie router rank }
    ensures same { board.new ≡ record board.old { tie = board.new.tie } }
{
    match rank {
        Rank::Better => Outcome::Upset,
        Rank::TiedBetter(by) => {
            note_tie(board, router, by);
            Outcome::Upset
        }
        Rank::TiedWorse(by) => {
            note_tie(board, router, by);
            Outcome::Fine
        }
        Rank::Equal | Rank::Worse => Outcome::Fine,
    }
}

// How an offer compares with the label of a settled router.
fn rank_at(lookups: &Lookups, label: &SharedRoute, offer: &Best) -> Result<Rank, NoMemory>
    ensures { IfOk result (λ rank. rank ≡ rank_of offer.now (fresh_of lookups.now label.now)) }
{
    let lone = lone_of(lookups, label)?;
    Ok(rank_over(offer, label, &lone))
}

// A router has a further candidate.
fn add_offer(
    lookups: &Lookups,
    board: &mut Board,
    queue: &mut Queue,
    router: u32,
    offer: Best,
) -> Result<Outcome, NoMemory>
    requires fits { Fits (count lookups.now) board.old }
    requires router { router < count lookups.now }
    ensures adds { IfOk result (Adds lookups.now board.old board.new router offer) }
    ensures queued { IfOk result (λ _. KeepsQueued board.old queue.old board.new queue.new) }
{
    if let Some(label) = &board.labels.as_slice()[router as usize] {
        let rank = rank_at(lookups, label, &offer)?;
        return Ok(judge(board, router, rank));
    }
    match &board.bests[router as usize] {
        None => {
            put_best(board, queue, router, offer)?;
            Ok(Outcome::Fine)
        }
        Some(best) => match replacement(lookups.alloc, best, offer)? {
            None => Ok(Outcome::Fine),
            Some(better) => {
                put_best(board, queue, router, better)?;
                Ok(Outcome::Fine)
            }
        },
    }
}

// Whether what the router gives over an edge is worse than the label or the best offer of the importer,
// whichever route it is.
fn is_beaten(lookups: &Lookups, board: &Board, router: u32, importer: u32, act: u32) -> bool
    requires fits { Fits (count lookups.now) board.now }
    requires router { router < count lookups.now }
    requires importer { importer < count lookups.now }
    requires act { act < length lookups.now.acts }
    ensures { result ≡ true → HasGiven lookups.now board.now board.now router (record { importer = importer; act = act }) IsFine }
{
    let _known = lookups.srp.count();
    let Some(from) = &board.labels.as_slice()[router as usize] else {
        return false;
    };
    if let Some(label) = &board.labels.as_slice()[importer as usize] {
        return are_worse(lookups, act, from, label);
    }
    let Some(best) = &board.bests[importer as usize] else {
        return false;
    };
    are_worse(lookups, act, from, &best.route)
}

// What a router that was settled gives another over an edge.
fn give(
    lookups: &Lookups,
    board: &mut Board,
    queue: &mut Queue,
    router: u32,
    importer: u32,
    act: u32,
) -> Result<Outcome, NoMemory>
    requires fits { Fits (count lookups.now) board.old }
    requires router { router < count lookups.now }
    requires importer { importer < count lookups.now }
    requires act { act < length lookups.now.acts }
    ensures given { IfOk result (HasGiven lookups.now board.old board.new router (record { importer = importer; act = act })) }
    ensures queued { IfOk result (λ _. KeepsQueued board.old queue.old board.new queue.new) }
{
    let _known = lookups.srp.count();
    if is_beaten(lookups, board, router, importer, act) {
        return Ok(Outcome::Fine);
    }
    match offer_over(lookups, &board.labels, router, importer, act)? {
        None => Ok(Outcome::Fine),
        Some(offer) => {
            let outcome = add_offer(lookups, board, queue, importer, offer)?;
            Ok(outcome)
        }
    }
}

// What a router that was settled gives the others.
fn spread(
    lookups: &Lookups,
    board: &mut Board,
    queue: &mut Queue,
    router: u32,
) -> Result<Outcome, NoMemory>
    requires fits { Fits (count lookups.now) board.old }
    requires router { router < count lookups.now }
    ensures spread { IfOk result (HasSpread lookups.now board.old board.new router) }
    ensures queued { IfOk result (λ _. KeepsQueued board.old queue.old board.new queue.new) }
{
    let _known = lookups.srp.count();
    for import in &lookups.exports.imports[router as usize] {
        match give(lookups, board, queue, router, import.importer, import.act)? {
            Outcome::Upset => return Ok(Outcome::Upset),
            Outcome::Fine => {}
        }
    }
    Ok(Outcome::Fine)
}

// A router took an offer, with which another one ties or none does.
fn note_at_take(board: &mut Board, router: u32, tied: Option<Difference>)
    ensures tie { board.new.tie ≡ noted_at_take board.old.tie router tied }
    ensures same { board.new ≡ record board.old { tie = board.new.tie } }
{
    if let Some(by) = tied {
        note_tie(board, router, by);
    }
}

// The router takes its best offer.
fn take(lookups: &Lookups, board: &mut Board, router: u32) -> Result<(), NoMemory>
    requires fits { Fits (count lookups.now) board.old }
    requires router { router < count lookups.now }
    ensures fits { IfOk result (λ _. Fits (count lookups.now) board.new) }
    ensures queued { (turns : Turns) → IfOk result (λ _. KeepsQueued board.old turns board.new turns) }
    ensures takes { IfOk result (λ _. (best : BestOffer) → best_at board.old.bests.items router ≡ Some best → Takes board.old board.new router best) }
{
    match replace(&mut board.bests[router as usize], None) {
        None => Ok(()),
        Some(best) => {
            let Best { route, lone, tied } = best;
            board.labels.set(router, Some(route));
            board.changes.push(Change::Settled { router, lone, tied })?;
            note_at_take(board, router, tied);
            Ok(())
        }
    }
}

/// The router takes its best offer, and offers what it took to the others. Upset: a label that was
/// settled is beaten now.
pub(crate) fn settle(
    lookups: &Lookups,
    board: &mut Board,
    queue: &mut Queue,
    router: u32,
) -> Result<Outcome, NoMemory>
    requires fits { Fits (count lookups.now) board.old }
    requires router { router < count lookups.now }
    ensures queued { IfOk result (λ _. KeepsQueued board.old queue.old board.new queue.new) }
    ensures settled { IfOk result (λ outcome. (best : BestOffer) → best_at board.old.bests.items router ≡ Some best → label board.old.labels router ≡ None → HasSettled lookups.now board.old board.new router best outcome) }
{
    let _known = lookups.srp.count();
    take(lookups, board, router)?;
    let outcome = spread(lookups, board, queue, router)?;
    Ok(outcome)
}
