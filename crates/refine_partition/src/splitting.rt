//! Routers in numbered blocks, and the split of all blocks by one of them.

ghost use Rattle.std.specs.Prelude.{◌≡◌, ◌<◌, ◌+◌, [], IfOk, OnOk, OnErr, length, slice_index_or};
ghost use Rattle.refine_partition.specs.Splitting.{IsSplitOf, IsSplittingOf, IsStartOf};

use crate::blocks::blocks_of;
use crate::division::divide;
use crate::graph_view::GraphView;
use crate::imports::exports_of;
use crate::numbering::numbers_of;
use base_kit::{ActGraph, NoMemory, Steps};
use std::alloc::Global;
use std::marker::Model;
use std::sync::ledger::Ledger;

/// The routers of a graph in blocks, which are numbered from 0, each an ascending list of routers.
#[derive(Drop)]
pub struct Splitting {
    alloc: Global,
    numbers: Vec<u32>,
    blocks: Vec<Vec<u32>>,
}

impl Model for Splitting {
    ghost use Rattle.std.specs.Prelude.{ℕ, List};
    ghost use Rattle.refine_partition.specs.Members.{block_lists};
    ghost use Rattle.refine_partition.specs.SplittingInside.{IsSplitting};

    ghost Value = { List (List ℕ) };

    ghost view = { λ s. block_lists s.blocks.items };

    ghost invariant = { IsSplitting };
}

impl Splitting {
    /// One block per color, in the order of their least members.
    pub fn start(alloc: Global, graph: &ActGraph) -> Result<Splitting, NoMemory>
        ensures of_graph { IfOk result (IsSplittingOf graph.now) }
        ensures start { IfOk result (IsStartOf graph.now) }
    {
        let _known = graph.count;
        let (numbers, count) = numbers_of(alloc, graph.colors.as_slice())?;
        let blocks = blocks_of(alloc, &numbers, count)?;
        Ok(Splitting {
            alloc,
            numbers,
            blocks,
        })
    }

    /// How many blocks there are.
    pub fn blocks(&self) -> u32
        ensures { result ≡ length self.now }
    {
        self.blocks.len() as u32
    }

    /// The routers of a block, ascending.
    pub fn block(&self, number: u32) -> &[u32]
        requires { number < length self.now }
        ensures { result.now ≡ slice_index_or self.now number [] }
    {
        &self.blocks[number as usize]
    }

    /// Divides every other block by the sets of acts of its members' edges into this one, which counts
    /// as one step. The piece of the least member keeps the block's number, and the further pieces get
    /// the next numbers, in the order of the numbers of the divided blocks and within one block of
    /// their least members. If memory runs out, the blocks stay as before.
    pub fn split_by<L: Ledger>(
        &mut self,
        graph: &ActGraph,
        block: u32,
        turns: &mut Steps<L>,
    ) -> Result<(), NoMemory>
        requires of_graph { IsSplittingOf graph.now self.old }
        requires known { block < length self.old }
        ensures of_graph { IsSplittingOf graph.now self.new }
        ensures tick { turns.new ≡ turns.old + 1 }
        ensures ok { OnOk result (IsSplitOf graph.now block self.old self.new) }
        ensures err { OnErr result (self.new ≡ self.old) }
    {
        turns.tick();
        let graph = GraphView::of(graph);
        let exports = exports_of(self.alloc, graph.count(), graph.edges())?;
        divide(
            self.alloc,
            &graph,
            &mut self.numbers,
            &mut self.blocks,
            &exports.imports,
            block,
        )?;
        Ok(())
    }
}

/// One block per color, in the order of their least members.
pub fn start(alloc: Global, graph: &ActGraph) -> Result<Splitting, NoMemory>
    ensures of_graph { IfOk result (IsSplittingOf graph.now) }
    ensures start { IfOk result (IsStartOf graph.now) }
{
    Splitting::start(alloc, graph)
}
