//! Which router is looked at next.

ghost use Rattle.std.specs.Prelude.{◌≡◌, ◌<◌, ℕ, IfOk, MatchOption, MatchBool, Some, is_some};
ghost use Rattle.solution_search.specs.Boards.{Fits, state_of};
ghost use Rattle.solution_search.specs.Looks.{is_above, open_size, IsTurn, IsLeast, IsClosed, is_offered, HasOffered, HasNoneOffered};
ghost use Rattle.solution_search.specs.Queues.{IsListed, IsQueued, KeepsListed};

use crate::board::Board;
use crate::queue::Queue;
use base_kit::NoMemory;
use shared_routes::{preference_of, size_of};

/// Whether a route has a higher preference than the router waits for, if it waits.
pub(crate) fn is_above(awaited: Option<u32>, preference: u32) -> bool
    ensures { result ≡ is_above awaited preference }
{
    match awaited {
        None => true,
        Some(awaited) => awaited < preference,
    }
}

// The size of the best offer of a router that is open: it has no label, has an offer, and does not wait
// for a better one.
#[tactic(auto, unfolding(crate::specs::Looks::open_size))]
fn open_size(board: &Board, routers: u32, router: u32) -> Option<u64>
    requires fits { Fits routers board.now }
    requires router { router < routers }
    ensures { result ≡ open_size (state_of board.now) router }
{
    if board.labels.as_slice()[router as usize].is_some() {
        return None;
    }
    match &board.bests[router as usize] {
        None => None,
        Some(best) => if is_above(board.waits[router as usize], preference_of(&best.route)) {
            Some(size_of(&best.route))
        } else {
            None
        },
    }
}

/// Whether the router is open.
pub(crate) fn is_open(board: &Board, routers: u32, router: u32) -> bool
    requires fits { Fits routers board.now }
    requires router { router < routers }
    ensures { result ≡ is_some (open_size (state_of board.now) router) }
{
    open_size(board, routers, router).is_some()
}

// Whether the router is open, and its best offer has that size.
fn is_turn(board: &Board, routers: u32, size: u64, router: u32) -> bool
    requires { Fits routers board.now }
    ensures { MatchBool result (IsTurn (state_of board.now) routers size router) (¬ IsTurn (state_of board.now) routers size router) }
{
    router < routers && open_size(board, routers, router) == Some(size)
}

/// The open router whose best offer has the least size. What stands before it in the queue is dropped.
pub(crate) fn next_router(board: &Board, queue: &mut Queue, routers: u32) -> Option<u32>
    requires fits { Fits routers board.now }
    requires queued { IsQueued (state_of board.now) queue.old }
    ensures next { MatchOption result (IsClosed (state_of board.now) routers) (IsLeast (state_of board.now) routers) }
    ensures queued { IsQueued (state_of board.now) queue.new }
{
    while let Some((size, router)) = queue.first() {
        if is_turn(board, routers, size, router) {
            return Some(router);
        }
        queue.drop_first();
    }
    None
}

// Puts the router into the queue if it is open.
fn queue_open(board: &Board, queue: &mut Queue, routers: u32, router: u32) -> Result<(), NoMemory>
    requires fits { Fits routers board.now }
    requires router { router < routers }
    ensures kept { IfOk result (λ _. KeepsListed queue.old queue.new) }
    ensures queued { IfOk result (λ _. (size : ℕ) → open_size (state_of board.now) router ≡ Some size → IsListed queue.new size router) }
{
    match open_size(board, routers, router) {
        None => Ok(()),
        Some(size) => queue.push(size, router),
    }
}

/// Puts the open routers into the queue, in the place of what it has.
pub(crate) fn queue_all(board: &Board, queue: &mut Queue, routers: u32) -> Result<(), NoMemory>
    requires { Fits routers board.now }
    ensures { IfOk result (λ _. IsQueued (state_of board.now) queue.new) }
{
    queue.clear();
    for router in 0..routers {
        queue_open(board, queue, routers, router)?;
    }
    Ok(())
}

/// Whether the router has an offer and no label.
pub(crate) fn is_offered(board: &Board, routers: u32, router: u32) -> bool
    requires fits { Fits routers board.now }
    requires router { router < routers }
    ensures { result ≡ is_offered (state_of board.now) router }
{
    board.labels.as_slice()[router as usize].is_none() && board.bests[router as usize].is_some()
}

/// Whether some router has an offer and no label.
pub(crate) fn has_waiting(board: &Board, routers: u32) -> bool
    requires { Fits routers board.now }
    ensures { MatchBool result (HasOffered (state_of board.now) routers) (HasNoneOffered (state_of board.now) routers) }
{
    for router in 0..routers {
        if is_offered(board, routers, router) {
            return true;
        }
    }
    false
}
