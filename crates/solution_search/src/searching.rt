//! The search.

ghost use Rattle.std.specs.Prelude.{◌≡◌, ◌<◌, ◌++◌, [], List, Option, IfNone, IfOk, None, Some, length, true};
ghost use Rattle.srp_core.specs.declared.route.Route.{Route};
ghost use Rattle.srp_core.specs.Problem.{count};
ghost use Rattle.srp_core.specs.Stability.{label};
ghost use Rattle.solution_search.specs.Ahead.{NothingComes};
ghost use Rattle.solution_search.specs.Looks.{IsLeast};
ghost use Rattle.solution_search.specs.declared.bests.Best.{Best as BestOffer};
ghost use Rattle.solution_search.specs.Burdens.{burden};
ghost use Rattle.solution_search.specs.Boards.{best_at, case_of, cases_of, is_tied, state_of, Fits, IsBoard};
ghost use Rattle.solution_search.specs.Endings.{EndsWith};
ghost use Rattle.solution_search.specs.Queues.{IsQueued, KeepsQueued, Turns};
ghost use Rattle.solution_search.specs.Search.{IsSearched};
ghost use Rattle.solution_search.specs.Steps.{Forks, GoesBack, SearchSteps, StepsTo, Turned};

use crate::ahead::{nothing_comes, outlook_of};
use crate::board::{Board, Change, Tie, Wait};
use crate::looking::{has_waiting, next_router, queue_all};
use crate::lookups::{Lookups, is_sure, lookups_of};
use crate::queue::Queue;
use crate::settling::{Outcome, settle};
use crate::start::start;
use crate::sweeping::{Look, sweep};
use crate::undoing::turn_back;
use crate::visitor::Visitor;
use base_kit::NoMemory;
use shared_routes::preference_of;
use srp_core::Srp;
use std::alloc::Global;

/// How a search ended.
#[derive(Clone, Copy, Debug, PartialEq, Eq)]
pub enum Ending {
    /// The visitor has seen all solutions. A tie is reported if one was met.
    All { tie: Option<Tie> },
    /// The visitor wanted no more.
    Stopped,
}

// Whether a router is lone and its edges may give it something better.
fn may_get_better(lookups: &Lookups, board: &Board, router: u32) -> bool
    requires fits { Fits (count lookups.now) board.now }
    requires router { router < count lookups.now }
{
    let _known = lookups.srp.count();
    match &board.bests[router as usize] {
        None => false,
        Some(best) => {
            lookups.srp.lone()[router as usize]
                && !is_sure(lookups, &board.labels, router, preference_of(&best.route))
        }
    }
}

// Whether nothing better comes to a router but by way of itself.
fn nothing_comes_around(lookups: &Lookups, board: &Board, router: u32) -> Result<bool, NoMemory>
    requires board { IsBoard lookups.now board.now }
    requires router { router < count lookups.now }
    requires unsettled { label board.now.labels router ≡ None }
    ensures { IfOk result (λ nothing. nothing ≡ true → NothingComes lookups.now (case_of (state_of board.now)) (Some router) router) }
{
    match outlook_of(lookups, board, Some(router))? {
        None => Ok(false),
        Some(outlook) => {
            let nothing = nothing_comes(lookups, board, &outlook, router)?;
            Ok(nothing)
        }
    }
}

// A lone router to which something better may come has two cases: it waits, or it takes its offer. The
// second is followed first.
fn put_fork(lookups: &Lookups, board: &mut Board, router: u32) -> Result<(), NoMemory>
    requires board { IsBoard lookups.now board.old }
    requires router { router < count lookups.now }
    requires unsettled { label board.old.labels router ≡ None }
    ensures queued { (turns : Turns) → IfOk result (λ _. KeepsQueued board.old turns board.new turns) }
    ensures forks { IfOk result (λ _. (best : BestOffer) → best_at board.old.bests.items router ≡ Some best → Forks lookups.now board.old board.new router best) }
{
    let _known = lookups.srp.count();
    match &board.bests[router as usize] {
        None => Ok(()),
        Some(best) => {
            let preference = preference_of(&best.route);
            if !lookups.srp.lone()[router as usize] {
                return Ok(());
            }
            if is_sure(lookups, &board.labels, router, preference) {
                return Ok(());
            }
            if nothing_comes_around(lookups, board, router)? {
                return Ok(());
            }
            board
                .changes
                .push(Change::Fork(Wait { router, preference }))?;
            Ok(())
        }
    }
}

// Before the turn of a router to which something better may come, settles those to which nothing comes.
// None: there is none, and all is as it was.
fn sweep_before(
    lookups: &Lookups,
    board: &mut Board,
    queue: &mut Queue,
    router: u32,
) -> Result<Option<Look>, NoMemory>
    requires board { IsBoard lookups.now board.old }
    requires router { router < count lookups.now }
    ensures steps { IfOk result (StepsTo lookups.now board.old board.new) }
    ensures queued { IfOk result (λ _. KeepsQueued board.old queue.old board.new queue.new) }
{
    if may_get_better(lookups, board, router) {
        let swept = sweep(lookups, board, queue)?;
        return Ok(swept);
    }
    Ok(None)
}

// Settles a router in its turn.
fn settle_in_turn(
    lookups: &Lookups,
    board: &mut Board,
    queue: &mut Queue,
    router: u32,
) -> Result<Look, NoMemory>
    requires board { IsBoard lookups.now board.old }
    requires least { IsLeast (state_of board.old) (count lookups.now) router }
    ensures steps { IfOk result (SearchSteps lookups.now board.old board.new) }
    ensures queued { IfOk result (λ _. KeepsQueued board.old queue.old board.new queue.new) }
{
    let _known = lookups.srp.count();
    put_fork(lookups, board, router)?;
    match settle(lookups, board, queue, router)? {
        Outcome::Fine => Ok(Look::Settled),
        Outcome::Upset => Ok(Look::Dead),
    }
}

// Settles the next router, if one is open, or routers to which nothing better comes.
fn advance(lookups: &Lookups, board: &mut Board, queue: &mut Queue) -> Result<Look, NoMemory>
    requires board { IsBoard lookups.now board.old }
    requires queued { IsQueued (state_of board.old) queue.old }
    ensures steps { IfOk result (SearchSteps lookups.now board.old board.new) }
    ensures queued { IfOk result (λ _. IsQueued (state_of board.new) queue.new) }
{
    let routers = lookups.srp.count();
    match next_router(board, queue, routers) {
        None => if has_waiting(board, routers) {
            Ok(Look::Dead)
        } else {
            Ok(Look::Solved)
        },
        Some(router) => match sweep_before(lookups, board, queue, router)? {
            Some(look) => Ok(look),
            None => {
                let look = settle_in_turn(lookups, board, queue, router)?;
                Ok(look)
            }
        },
    }
}

// Goes back to the last fork, or ends.
fn go_back(
    alloc: Global,
    board: &mut Board,
    queue: &mut Queue,
    routers: u32,
) -> Result<Option<Ending>, NoMemory>
    requires fits { Fits (length board.old.labels) board.old }
    requires routers { routers ≡ length board.old.labels }
    ensures fits { IfOk result (λ _. Fits (length board.old.labels) board.new) }
    ensures tie { IfOk result (λ _. board.new.tie ≡ board.old.tie) }
    ensures pending { IfOk result (GoesBack board.old board.new) }
    ensures queued { IfOk result (λ ending. IfNone ending (IsQueued (state_of board.new) queue.new)) }
{
    if turn_back(alloc, board)? {
        queue_all(board, queue, routers)?;
        Ok(None)
    } else {
        Ok(Some(Ending::All { tie: board.tie }))
    }
}

// One look at the board, and what follows of it.
fn turn<V: Visitor>(
    lookups: &Lookups,
    board: &mut Board,
    queue: &mut Queue,
    visitor: &mut V,
) -> Result<Option<Ending>, NoMemory>
    requires board { IsBoard lookups.now board.old }
    requires queued { IsQueued (state_of board.old) queue.old }
    requires problem { V.problem visitor.old ≡ lookups.now }
    ensures problem { IfOk result (λ _. V.problem visitor.new ≡ lookups.now) }
    ensures task { IfOk result (λ _. V.task visitor.new ≡ V.task visitor.old) }
    ensures board { IfOk result (λ ending. IfNone ending (IsBoard lookups.now board.new)) }
    ensures queued { IfOk result (λ ending. IfNone ending (IsQueued (state_of board.new) queue.new)) }
    ensures lighter { IfOk result (λ ending. IfNone ending (burden (cases_of board.new) < burden (cases_of board.old))) }
    ensures turned { IfOk result (λ ending. (found : List (List (Option Route))) → V.Saw visitor.old found → IsSearched lookups.now found (cases_of board.old) (is_tied board.old) → (more : List (List (Option Route))) × V.Saw visitor.new more × Turned lookups.now more (V.wants visitor.new) board.new ending) }
{
    let routers = lookups.srp.count();
    match advance(lookups, board, queue)? {
        Look::Settled => Ok(None),
        Look::Dead => {
            let ending = go_back(lookups.alloc, board, queue, routers)?;
            Ok(ending)
        }
        Look::Solved => {
            visitor.see(&board.labels)?;
            if !visitor.wants_more() {
                return Ok(Some(Ending::Stopped));
            }
            let ending = go_back(lookups.alloc, board, queue, routers)?;
            Ok(ending)
        }
    }
}

/// Shows the visitor all stable labels of the problem, up to the names on paths: no two of those that it
/// sees have the same keys.
///
/// # Errors
/// Out of memory.
pub fn search<V: Visitor>(alloc: Global, srp: &Srp, visitor: &mut V) -> Result<Ending, NoMemory>
    requires { V.problem visitor.old ≡ srp.now }
    ensures problem { IfOk result (λ _. V.problem visitor.new ≡ srp.now) }
    ensures task { IfOk result (λ _. V.task visitor.new ≡ V.task visitor.old) }
    ensures ends { IfOk result (λ ending. V.Saw visitor.old [] → (found : List (List (Option Route))) × V.Saw visitor.new found × EndsWith srp.now found (V.wants visitor.new) ending) }
{
    let _known = srp.count();
    let lookups = lookups_of(alloc, srp)?;
    let mut board = start(&lookups)?;
    let mut queue = Queue::new(alloc);
    queue_all(&board, &mut queue, srp.count())?;
    loop {
        if let Some(ending) = turn(&lookups, &mut board, &mut queue, visitor)? {
            return Ok(ending);
        }
    }
}
