//! Routers in the order in which they come next.

ghost use Rattle.std.specs.Prelude.{◌≡◌, ◌<◌, [], ℕ, IfOk, MatchOption, length};
ghost use Rattle.std.specs.BinaryHeap.{IsHeap, heap_items};
ghost use Rattle.std.specs.Ordering.{nat_cmp, ordering_then};
ghost use Rattle.std.proofs.Props.{props};
ghost use Rattle.solution_search.specs.Queues.{DropsListed, IsFirstTurn, IsListed, KeepsListed};

use base_kit::NoMemory;
use std::alloc::Global;
use std::cmp::Reverse;
use std::collections::BinaryHeap;
use std::marker::Model;

/// Sizes of offers, each with its router. The least size comes first, and of several the first router.
#[derive(Drop)]
pub(crate) struct Queue {
    turns: BinaryHeap<Reverse<(u64, u32)>>,
    ghost ordered: { IsHeap (λ x y. ordering_then (nat_cmp y.0.0 x.0.0) (nat_cmp y.0.1 x.0.1)) (heap_items turns) } by { Prim.hlevel props },
}

impl Model for Queue {
    ghost use Rattle.std.specs.BinaryHeap.{heap_items};
    ghost use Rattle.solution_search.specs.Queues.{Turns};

    ghost Value = { Turns };

    ghost view = { λ q. heap_items q.turns };
}

impl Queue {
    /// Nothing is in it.
    pub(crate) fn new(alloc: Global) -> Queue
        ensures { result ≡ [] }
    {
        Queue {
            turns: BinaryHeap::new(alloc),
        }
    }

    /// Puts one more in.
    pub(crate) fn push(&mut self, size: u64, router: u32) -> Result<(), NoMemory>
        ensures new { IfOk result (λ _. IsListed self.new size router) }
        ensures kept { IfOk result (λ _. KeepsListed self.old self.new) }
    {
        self.turns.push(Reverse((size, router)))?;
        Ok(())
    }

    /// What comes first.
    pub(crate) fn first(&self) -> Option<(u64, u32)>
        ensures { MatchOption result (self.now ≡ []) (λ turn. IsFirstTurn self.now turn.0 turn.1) }
    {
        match self.turns.peek() {
            None => None,
            Some(turn) => Some(turn.0),
        }
    }

    /// Drops what comes first, if anything is in it.
    pub(crate) fn drop_first(&mut self)
        ensures rest { (size router : ℕ) → IsFirstTurn self.old size router → DropsListed self.old self.new size router }
        ensures fewer { (size router : ℕ) → IsFirstTurn self.old size router → length self.new < length self.old }
    {
        let Some(_turn) = self.turns.pop() else {
            return;
        };
    }

    /// Drops all.
    pub(crate) fn clear(&mut self)
        ensures { self.new ≡ [] }
    {
        self.turns.clear();
    }
}
