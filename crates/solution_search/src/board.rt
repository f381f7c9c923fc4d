//! What is settled so far, and the changes that led to it.

ghost use Rattle.std.specs.Prelude.{◌≡◌, ◌<◌, ◌++◌, ◌∷◌, [], IfOk, length, slice_set, slice_index_or};
ghost use Rattle.solution_search.specs.Boards.{best_at, difference_of, noted_tie, SameButBests, SameButWaits};
ghost use Rattle.solution_search.specs.Queues.{KeepsQueued};

use crate::bests::{Best, Difference, is_told};
use crate::queue::Queue;
use base_kit::{NoMemory, NumSet};
use shared_routes::{SharedLabels, size_of};
use std::mem::replace;

/// A router took an offer while another of its offers had the same preference and the same size and
/// another key.
#[derive(Clone, Copy, Debug, PartialEq, Eq)]
pub struct Tie {
    pub router: u32,
    pub by: Difference,
}

/// A router, and a preference: it waits for an offer above that.
#[derive(Clone, Copy, Debug, PartialEq, Eq)]
pub(crate) struct Wait {
    pub(crate) router: u32,
    pub(crate) preference: u32,
}

/// A change of the board.
#[derive(Drop)]
pub(crate) enum Change {
    /// The router took its best offer, with these lone numbers and that tie.
    Settled {
        router: u32,
        lone: NumSet,
        tied: Option<Difference>,
    },
    /// The router began to wait for a higher preference than before.
    Waits {
        router: u32,
        before: Option<u32>,
    },
    /// The router's best offer was replaced.
    Offered {
        router: u32,
        before: Option<Best>,
    },
    /// None, but the router may wait instead of what follows.
    Fork(Wait),
}

/// For each router its label if it is settled, the preference above which it waits for an offer if it
/// waits, and its best offer if it has taken none; all changes since the start; and a tie, if one was met.
#[derive(Drop)]
pub(crate) struct Board {
    pub(crate) labels: SharedLabels,
    pub(crate) waits: Vec<Option<u32>>,
    pub(crate) bests: Vec<Option<Best>>,
    pub(crate) changes: Vec<Change>,
    pub(crate) tie: Option<Tie>,
}

/// Puts a best offer in the place of the router's own, and the router into the queue.
pub(crate) fn put_best(
    board: &mut Board,
    queue: &mut Queue,
    router: u32,
    best: Best,
) -> Result<(), NoMemory>
    requires { router < length board.old.bests.items }
    ensures same { IfOk result (λ _. SameButBests board.old board.new) }
    ensures bests { IfOk result (λ _. board.new.bests.items ≡ slice_set board.old.bests.items router (Some best)) }
    ensures changes { IfOk result (λ _. board.new.changes.items ≡ board.old.changes.items ++ Change.Offered router (best_at board.old.bests.items router) ∷ []) }
    ensures queued { IfOk result (λ _. KeepsQueued board.old queue.old board.new queue.new) }
{
    queue.push(size_of(&best.route), router)?;
    let before = replace(&mut board.bests[router as usize], Some(best));
    board.changes.push(Change::Offered { router, before })?;
    Ok(())
}

/// The router waits.
pub(crate) fn put_wait(board: &mut Board, wait: Wait) -> Result<(), NoMemory>
    requires { wait.router < length board.old.waits.items }
    ensures same { IfOk result (λ _. SameButWaits board.old board.new) }
    ensures waits { IfOk result (λ _. board.new.waits.items ≡ slice_set board.old.waits.items wait.router (Some wait.preference)) }
    ensures changes { IfOk result (λ _. board.new.changes.items ≡ board.old.changes.items ++ Change.Waits wait.router (slice_index_or board.old.waits.items wait.router None) ∷ []) }
{
    let router = wait.router;
    let before = board.waits[router as usize];
    board.waits[router as usize] = Some(wait.preference);
    board.changes.push(Change::Waits { router, before })?;
    Ok(())
}

fn difference_of(tie: Option<Tie>) -> Option<Difference>
    ensures { result ≡ difference_of tie }
{
    match tie {
        None => None,
        Some(tie) => Some(tie.by),
    }
}

/// Notes a tie, unless one is noted that says as much.
pub(crate) fn note_tie(board: &mut Board, router: u32, by: Difference)
    ensures tie { board.new.tie ≡ noted_tie board.old.tie router by }
    ensures same { board.new ≡ record board.old { tie = board.new.tie } }
{
    if !is_told(difference_of(board.tie), by) {
        board.tie = Some(Tie { router, by });
    }
}
