//! Changes are undone, back to the last router that may wait instead.

ghost use Rattle.std.specs.Prelude.{◌≡◌, ◌<◌, ◌∷◌, [], IfOk, IfSome, MatchBool, MatchOption, length};
ghost use Rattle.std.specs.List.{list_any};
ghost use Rattle.solution_search.specs.Boards.{Fits, IsWithin, is_fork, offer_back, state_of, undo, put_off, pending_of, waits_for};

use crate::bests::{Best, Difference};
use crate::board::{Board, Change, Wait, put_wait};
use base_kit::{NoMemory, NumSet};
use shared_routes::SharedRoute;
use std::alloc::Global;

// The offer that became the label of a router.
fn offer_back(
    alloc: Global,
    label: &Option<SharedRoute>,
    lone: NumSet,
    tied: Option<Difference>,
) -> Result<Option<Best>, NoMemory>
    ensures { IfOk result (λ offer. offer ≡ offer_back label.now lone tied) }
{
    match label {
        None => Ok(None),
        Some(label) => {
            let route = label.copy(alloc)?;
            Ok(Some(Best { route, lone, tied }))
        }
    }
}

// Undoes a change. Of a fork it gives who may wait.
fn undo(alloc: Global, board: &mut Board, change: Change) -> Result<Option<Wait>, NoMemory>
    requires fits { Fits (length board.old.labels) board.old }
    requires within { IsWithin (length board.old.labels) change }
    ensures state { IfOk result (λ _. state_of board.new ≡ undo change (state_of board.old)) }
    ensures changes { IfOk result (λ _. board.new.changes ≡ board.old.changes) }
    ensures tie { IfOk result (λ _. board.new.tie ≡ board.old.tie) }
    ensures fork { IfOk result (λ wait. MatchOption wait (put_off change (state_of board.new) ≡ []) (λ w. change ≡ Change.Fork w)) }
{
    match change {
        Change::Settled { router, lone, tied } => {
            let offer = offer_back(alloc, &board.labels.as_slice()[router as usize], lone, tied)?;
            board.labels.set(router, None);
            board.bests[router as usize] = offer;
            Ok(None)
        }
        Change::Waits { router, before } => {
            board.waits[router as usize] = before;
            Ok(None)
        }
        Change::Offered { router, before } => {
            board.bests[router as usize] = before;
            Ok(None)
        }
        Change::Fork(wait) => Ok(Some(wait)),
    }
}

fn is_fork(change: &Change) -> bool
    ensures { result ≡ is_fork change.now }
{
    match change {
        Change::Settled { .. } => false,
        Change::Waits { .. } => false,
        Change::Offered { .. } => false,
        Change::Fork(_) => true,
    }
}

fn has_fork(changes: &[Change]) -> bool
    ensures { result ≡ list_any is_fork changes.now }
{
    changes.iter().any(|change| is_fork(change))
}

// Undoes what was done since the last fork. None: there is no fork, and all stays as it was.
fn last_fork(alloc: Global, board: &mut Board) -> Result<Option<Wait>, NoMemory>
    requires { Fits (length board.old.labels) board.old }
    ensures fits { IfOk result (λ _. Fits (length board.old.labels) board.new) }
    ensures tie { IfOk result (λ _. board.new.tie ≡ board.old.tie) }
    ensures within { IfOk result (λ fork. IfSome fork (λ wait. wait.router < length board.old.labels)) }
    ensures pending { IfOk result (λ fork. MatchOption fork (pending_of board.old ≡ []) (λ wait. pending_of board.old ≡ waits_for wait (state_of board.new) ∷ pending_of board.new)) }
{
    if !has_fork(board.changes.as_slice()) {
        return Ok(None);
    }
    while let Some(change) = board.changes.pop() {
        match undo(alloc, board, change)? {
            None => {}
            Some(wait) => return Ok(Some(wait)),
        }
    }
    Ok(None)
}

/// Undoes what was done since the last fork, and lets its router wait. False: there is no fork.
pub(crate) fn turn_back(alloc: Global, board: &mut Board) -> Result<bool, NoMemory>
    requires { Fits (length board.old.labels) board.old }
    ensures fits { IfOk result (λ _. Fits (length board.old.labels) board.new) }
    ensures tie { IfOk result (λ _. board.new.tie ≡ board.old.tie) }
    ensures pending { IfOk result (λ more. MatchBool more (pending_of board.old ≡ state_of board.new ∷ pending_of board.new) (pending_of board.old ≡ [])) }
{
    match last_fork(alloc, board)? {
        None => Ok(false),
        Some(wait) => {
            put_wait(board, wait)?;
            Ok(true)
        }
    }
}
