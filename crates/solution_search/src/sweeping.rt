//! Routers to which nothing better comes are settled out of turn.

ghost use Rattle.std.specs.Prelude.{◌≡◌, ◌<◌, IfOk, None, Some};
ghost use Rattle.srp_core.specs.Problem.{count};
ghost use Rattle.solution_search.specs.Boards.{IsBoard, case_of, state_of};
ghost use Rattle.solution_search.specs.Outlooks.{ForeseesAll};
ghost use Rattle.solution_search.specs.Queues.{KeepsQueued};
ghost use Rattle.solution_search.specs.Steps.{StepsTo};
ghost use Rattle.solution_search.specs.declared.sweeping.Look.TheVariants.{Settled as HasSettled};

use crate::ahead::{Outlook, nothing_comes, outlook_of};
use crate::board::Board;
use crate::looking::{is_offered, is_open};
use crate::lookups::Lookups;
use crate::queue::Queue;
use crate::settling::{Outcome, settle};
use base_kit::NoMemory;

/// What a look at the board came to.
#[derive(Clone, Copy, Debug, PartialEq, Eq)]
pub(crate) enum Look {
    /// A router was settled.
    Settled,
    /// The case has no solution.
    Dead,
    /// The labels are stable.
    Solved,
}

// Settles the router if it is open and nothing better comes to it. Where it waits and nothing comes, the
// case is dead. None: all is as it was.
fn settle_if_clear(
    lookups: &Lookups,
    board: &mut Board,
    queue: &mut Queue,
    outlook: &Outlook,
    router: u32,
) -> Result<Option<Look>, NoMemory>
    requires board { IsBoard lookups.now board.old }
    requires router { router < count lookups.now }
    requires outlook { ForeseesAll lookups.now (case_of (state_of board.old)) None outlook.now.table.items }
    ensures steps { IfOk result (StepsTo lookups.now board.old board.new) }
    ensures queued { IfOk result (λ _. KeepsQueued board.old queue.old board.new queue.new) }
    ensures outlook { IfOk result (λ look. look ≡ Some HasSettled → ForeseesAll lookups.now (case_of (state_of board.new)) None outlook.now.table.items) }
{
    let routers = lookups.srp.count();
    if !is_offered(board, routers, router) {
        return Ok(None);
    }
    if !nothing_comes(lookups, board, outlook, router)? {
        return Ok(None);
    }
    if !is_open(board, routers, router) {
        return Ok(Some(Look::Dead));
    }
    match settle(lookups, board, queue, router)? {
        Outcome::Fine => Ok(Some(Look::Settled)),
        Outcome::Upset => Ok(Some(Look::Dead)),
    }
}

// Settles each router to which nothing better comes. None: there is none, and all is as it was.
fn sweep_by(
    lookups: &Lookups,
    board: &mut Board,
    queue: &mut Queue,
    outlook: &Outlook,
) -> Result<Option<Look>, NoMemory>
    requires board { IsBoard lookups.now board.old }
    requires outlook { ForeseesAll lookups.now (case_of (state_of board.old)) None outlook.now.table.items }
    ensures steps { IfOk result (StepsTo lookups.now board.old board.new) }
    ensures queued { IfOk result (λ _. KeepsQueued board.old queue.old board.new queue.new) }
{
    let mut swept = None;
    for router in 0..lookups.srp.count() {
        match settle_if_clear(lookups, board, queue, outlook, router)? {
            None => {}
            Some(look) => match look {
                Look::Settled => swept = Some(Look::Settled),
                Look::Dead => return Ok(Some(Look::Dead)),
                Look::Solved => return Ok(Some(Look::Solved)),
            },
        }
    }
    Ok(swept)
}

/// Settles each router of which it is foreseen that nothing better comes to it. None: there is none, and
/// all is as it was.
pub(crate) fn sweep(
    lookups: &Lookups,
    board: &mut Board,
    queue: &mut Queue,
) -> Result<Option<Look>, NoMemory>
    requires { IsBoard lookups.now board.old }
    ensures steps { IfOk result (StepsTo lookups.now board.old board.new) }
    ensures queued { IfOk result (λ _. KeepsQueued board.old queue.old board.new queue.new) }
{
    match outlook_of(lookups, board, None)? {
        None => Ok(None),
        Some(outlook) => {
            let swept = sweep_by(lookups, board, queue, &outlook)?;
            Ok(swept)
        }
    }
}
