//! Partitions of routers into numbered groups, and the coarsest admissible one.

ghost use Rattle.std.specs.Prelude.{◌≡◌, ℕ, ◌<◌, ◌≤◌, ◌+◌, ◌*◌, ◌^◌, IfOk, Contains, length, slice_index};
ghost use Rattle.base_kit.specs.Partition.{IsNumbered, IsCoarsestOn, members_of};
ghost use Rattle.refine_partition.specs.Index.{IsImportIndex};
ghost use Rattle.refine_partition.specs.Runs.{AreReachedBy};

use crate::blocks::blocks_of;
use crate::graph_view::GraphView;
use crate::imports::{Exports, exports_of};
use crate::numbering::numbers_of_small;
use crate::pending::refined;
use base_kit::{ActGraph, NoMemory, Steps};
use std::alloc::Global;
use std::marker::Model;
use std::sync::ledger::Ledger;

/// Routers in groups, which are numbered from 0 by their least members.
#[derive(Drop)]
pub struct Partition {
    numbers: Vec<u32>,
    count: u32,
    blocks: Vec<Vec<u32>>,
}

impl Model for Partition {
    ghost use Rattle.std.specs.Prelude.{List, ℕ};

    ghost Value = { List ℕ };

    ghost use Rattle.refine_partition.specs.Inside.{IsPartition};

    ghost view = { λ p. p.numbers.items };

    ghost invariant = { IsPartition };
}

impl Partition {
    /// The number of groups.
    pub fn groups(&self) -> u32
        ensures { IsNumbered self.now result }
    {
        self.count
    }

    /// The number of a router's group.
    pub fn group_of(&self, router: u32) -> u32
        requires { router < length self.now }
        ensures { result ≡ slice_index self.now router }
    {
        self.numbers[router as usize]
    }

    /// The members of a group, ascending.
    pub fn members(&self, group: u32) -> &[u32]
        requires { Contains self.now group }
        ensures { result.now ≡ members_of self.now group }
    {
        &self.blocks[group as usize]
    }
}

/// A partition of these group numbers.
fn from_numbers(alloc: Global, numbers: Vec<u32>, count: u32) -> Result<Partition, NoMemory>
    requires fits { length numbers.items < 2 ^ 32 }
    requires numbered { IsNumbered numbers.items count }
    ensures { IfOk result (λ p. p ≡ numbers.items) }
{
    let blocks = blocks_of(alloc, &numbers, count)?;
    Ok(Partition {
        numbers,
        count,
        blocks,
    })
}

/// The coarsest admissible partition of a graph over borrowed edges, by its edges' exporters: every
/// admissible one refines it. It counts its turns, at most two for each router. Its groups are the blocks
/// to which as many splits lead from the start, each as `split_by` divides, number for number. No two of
/// them take a block of the same members, and each group is one that was taken.
pub fn coarsest_by<L: Ledger>(
    alloc: Global,
    graph: &GraphView,
    exports: &Exports,
    turns: &mut Steps<L>,
) -> Result<Partition, NoMemory>
    requires one_list_each { length exports.now.imports.items ≡ graph.now.count }
    requires index { IsImportIndex graph.now.edges exports.now.imports.items }
    ensures coarsest { IfOk result (λ p. IsCoarsestOn graph.now p) }
    ensures splits { IfOk result (λ p. (splits : ℕ) × (turns.new ≡ turns.old + splits) × AreReachedBy graph.now splits p) }
    ensures turns { turns.new ≤ turns.old + 2 * graph.now.count }
{
    let _known = graph.count();
    let blocks = refined(alloc, graph, &exports.imports, turns)?;
    let (numbers, count) = numbers_of_small(alloc, &blocks)?;
    let partition = from_numbers(alloc, numbers, count)?;
    Ok(partition)
}

/// The coarsest admissible partition of a graph over borrowed edges: every admissible one refines it. It
/// counts its turns, at most two for each router. Its groups are the blocks to which as many splits lead
/// from the start, each as `split_by` divides, number for number. No two of them take a block of the same
/// members, and each group is one that was taken.
pub fn coarsest_over<L: Ledger>(
    alloc: Global,
    graph: &GraphView,
    turns: &mut Steps<L>,
) -> Result<Partition, NoMemory>
    ensures coarsest { IfOk result (λ p. IsCoarsestOn graph.now p) }
    ensures splits { IfOk result (λ p. (splits : ℕ) × (turns.new ≡ turns.old + splits) × AreReachedBy graph.now splits p) }
    ensures turns { turns.new ≤ turns.old + 2 * graph.now.count }
{
    let exports = exports_of(alloc, graph.count(), graph.edges())?;
    coarsest_by(alloc, graph, &exports, turns)
}

/// The coarsest admissible partition of a graph: every admissible one refines it. It counts its turns,
/// at most two for each router. Its groups are the blocks to which as many calls of `split_by` lead from
/// `start`, no two of which take a block of the same members, and each group is one that was taken.
pub fn coarsest<L: Ledger>(
    alloc: Global,
    graph: &ActGraph,
    turns: &mut Steps<L>,
) -> Result<Partition, NoMemory>
    ensures coarsest { IfOk result (λ p. IsCoarsestOn graph.now p) }
    ensures splits { IfOk result (λ p. (splits : ℕ) × (turns.new ≡ turns.old + splits) × AreReachedBy graph.now splits p) }
    ensures turns { turns.new ≤ turns.old + 2 * graph.now.count }
{
    coarsest_over(alloc, &GraphView::of(graph), turns)
}
