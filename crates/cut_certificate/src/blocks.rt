//! The routers of a graph in numbered blocks.

ghost use Rattle.std.specs.Prelude.{slice_index, ◌≡◌, ◌<◌, ◌≤◌, ◌+◌, ◌^◌, ◌&&◌, All, IfOk, length};
ghost use Rattle.cut_certificate.specs.Blocks.{edge_act, first_blocks, is_block, split_by};
ghost use Rattle.cut_certificate.specs.InUse.{AreInUse};
ghost use Rattle.cut_certificate.specs.Moves.{AreIncoming, AreMembersListed, IsSplitOrFault};
ghost use Rattle.cut_certificate.specs.Outgoing.{AreIndexed};

use crate::certificate::Split;
use crate::moving::{has_stayer, movers, renumber};
use crate::numbering::numbers_of;
use crate::outgoing::Placed;
use crate::refusal::CutKind;
use base_kit::{ActGraph, NoMemory};
use std::alloc::Global;
use std::marker::Model;

/// The number of each router's block, from 1, and how many blocks there are. The list of a block, at the
/// number of the block, has all its members, in any order, and perhaps routers that have left it. These
/// are dropped when they are met. So a split does not look at the members of a large block that stay.
#[derive(Drop)]
pub(crate) struct Blocks {
    numbers: Vec<usize>,
    count: usize,
    lists: Vec<Vec<u32>>,
}

impl Model for Blocks {
    ghost use Rattle.cut_certificate.specs.Blocks.{Blocks};
    ghost use Rattle.cut_certificate.specs.Moves.{AreHeld};

    ghost Value = { Blocks };

    ghost view = { λ b. record { numbers = b.numbers.items; count = b.count } };

    ghost invariant = { λ b. AreHeld b.numbers.items b.count b.lists.items };
}

// The list of each block, by its number.
fn lists_of(alloc: Global, numbers: &[usize], count: usize) -> Result<Vec<Vec<u32>>, NoMemory>
    requires fits { length numbers.now < 2 ^ 32 }
    requires some { count ≤ length numbers.now }
    requires known { All (λ number. (0 < number) × (number ≤ count)) numbers.now }
    ensures total { IfOk result (λ v. length v.items ≡ count + 1) }
    ensures listed { IfOk result (λ v. AreMembersListed numbers.now v.items) }
{
    let mut lists = Vec::new(alloc);
    for _list in 0..count + 1 {
        lists.push(Vec::new(alloc))?;
    }
    for router in 0..numbers.len() {
        lists[numbers[router]].push(router as u32)?;
    }
    Ok(lists)
}

impl Blocks {
    /// One block for each color, in the order of their least members.
    pub(crate) fn first(alloc: Global, graph: &ActGraph) -> Result<Blocks, NoMemory>
        ensures { IfOk result (λ b. b ≡ first_blocks graph.now) }
    {
        let _known = graph.count;
        let mut colors = Vec::new(alloc);
        for color in graph.colors.as_slice() {
            colors.push(*color as usize)?;
        }
        let (numbers, count) = numbers_of(alloc, &colors)?;
        let lists = lists_of(alloc, &numbers, count)?;
        Ok(Blocks {
            numbers,
            count,
            lists,
        })
    }

    /// The number of each router's block.
    pub(crate) fn numbers(&self) -> &[usize]
        ensures { result.now ≡ self.now.numbers }
    {
        &self.numbers
    }

    /// How many blocks there are.
    pub(crate) fn count(&self) -> usize
        ensures value { result ≡ self.now.count }
        ensures in_use { AreInUse self.now.numbers self.now.count }
    {
        self.count
    }

    /// The number of a router's block.
    pub(crate) fn number_of(&self, router: u32) -> u32
        requires router { router < length self.now.numbers }
        requires few { length self.now.numbers < 2 ^ 32 }
        ensures { result ≡ slice_index self.now.numbers router }
    {
        self.numbers[router as usize] as u32
    }

    fn are_blocks(&self, split: Split) -> bool
        ensures { result ≡ (is_block self.now split.block && is_block self.now split.by) }
    {
        1 <= split.block
            && split.block as usize <= self.count
            && (1 <= split.by && split.by as usize <= self.count)
    }

    /// The list of a block: all its members, and perhaps routers that have left it.
    pub(crate) fn list_of(&self, block: usize) -> Option<&Vec<u32>> {
        self.lists.get(block)
    }

    /// The blocks after a split whose edge has this act, or these blocks and the fault of the split:
    /// `NoBlock` if one of its two blocks does not exist, else `SameBlock` if they are one block, else
    /// `NothingSplit` if all members would stay or all would go.
    pub(crate) fn split_by(
        self,
        alloc: Global,
        graph: &ActGraph,
        outgoing: &[Vec<Placed>],
        incoming: &[Vec<Placed>],
        split: Split,
        act: u32,
    ) -> Result<(Blocks, Option<CutKind>), NoMemory>
        requires index { AreIndexed graph.now outgoing.now }
        requires incoming { AreIncoming graph.now incoming.now }
        requires total { length self.numbers ≡ graph.now.count }
        requires act { act ≡ edge_act graph.now.edges split.edge }
        ensures { IfOk result (λ r. IsSplitOrFault (split_by graph.now.edges self split) self r.0 r.1) }
    {
        if !self.are_blocks(split) {
            return Ok((self, Some(CutKind::NoBlock)));
        }
        if split.block == split.by {
            return Ok((self, Some(CutKind::SameBlock)));
        }
        let Blocks {
            mut numbers,
            count,
            mut lists,
        } = self;
        let movers = movers(
            alloc, graph, outgoing, incoming, &numbers, &lists, split, act,
        )?;
        let list = &mut lists[split.block as usize];
        let stays = has_stayer(graph, outgoing, &numbers, list, split, act);
        if movers.is_empty() || !stays {
            let same = Blocks {
                numbers,
                count,
                lists,
            };
            return Ok((same, Some(CutKind::NothingSplit)));
        }
        let next = count + 1;
        renumber(&mut numbers, &movers, next);
        lists.push(movers)?;
        let after = Blocks {
            numbers,
            count: next,
            lists,
        };
        Ok((after, None))
    }
}
