//! Calls that refine graphs and ask about their partitions.

ghost use Rattle.std.specs.Prelude.{◌≡◌, ℕ, ◌+◌, ◌*◌, ◌≤◌, ◌<◌, [], Contains, IfOk, OnErr, OnOk, length, slice_index, slice_index_or};
ghost use Rattle.base_kit.specs.Partition.{IsCoarsestOn, IsNumbered, members_of};
ghost use Rattle.refine_partition.specs.Runs.{AreReachedBy};
ghost use Rattle.refine_partition.specs.Splitting.{IsSplitOf, IsSplittingOf, IsStartOf};

use base_kit::{ActGraph, NoMemory, Steps};
use refine_partition::{Partition, Splitting, coarsest, start};
use std::alloc::Global;
use std::sync::ledger::Ledger;

/// The coarsest admissible partition of a graph.
pub fn groups_of<L: Ledger>(
    alloc: Global,
    graph: &ActGraph,
    turns: &mut Steps<L>,
) -> Result<Partition, NoMemory>
    ensures coarsest { IfOk result (λ p. IsCoarsestOn graph.now p) }
    ensures turns { turns.new ≤ turns.old + 2 * graph.now.count }
    ensures splits { IfOk result (λ p. (splits : ℕ) × (turns.new ≡ turns.old + splits) × AreReachedBy graph.now splits p) }
{
    coarsest(alloc, graph, turns)
}

/// How many groups there are.
pub fn count_of_groups(p: &Partition) -> u32
    ensures { IsNumbered p.now result }
{
    p.groups()
}

/// The group of a router.
pub fn group_of(p: &Partition, router: u32) -> u32
    requires { router < length p.now }
    ensures { result ≡ slice_index p.now router }
{
    p.group_of(router)
}

/// The members of a group.
pub fn members_in(p: &Partition, group: u32) -> &[u32]
    requires { Contains p.now group }
    ensures { result.now ≡ members_of p.now group }
{
    p.members(group)
}

/// The blocks of equal color.
pub fn first_blocks(alloc: Global, graph: &ActGraph) -> Result<Splitting, NoMemory>
    ensures of_graph { IfOk result (IsSplittingOf graph.now) }
    ensures start { IfOk result (IsStartOf graph.now) }
{
    start(alloc, graph)
}

/// How many blocks there are.
pub fn count_of_blocks(splitting: &Splitting) -> u32
    ensures { result ≡ length splitting.now }
{
    splitting.blocks()
}

/// The routers of a block.
pub fn routers_in(splitting: &Splitting, number: u32) -> &[u32]
    requires { number < length splitting.now }
    ensures { result.now ≡ slice_index_or splitting.now number [] }
{
    splitting.block(number)
}

/// Divides all other blocks by one, which is a step.
pub fn divide_by<L: Ledger>(
    splitting: &mut Splitting,
    graph: &ActGraph,
    block: u32,
    turns: &mut Steps<L>,
) -> Result<(), NoMemory>
    requires of_graph { IsSplittingOf graph.now splitting.old }
    requires known { block < length splitting.old }
    ensures of_graph { IsSplittingOf graph.now splitting.new }
    ensures tick { turns.new ≡ turns.old + 1 }
    ensures ok { OnOk result (IsSplitOf graph.now block splitting.old splitting.new) }
    ensures err { OnErr result (splitting.new ≡ splitting.old) }
{
    splitting.split_by(graph, block, turns)
}
