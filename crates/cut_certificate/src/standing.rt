//! How far a certificate has been read.

ghost use Rattle.std.specs.Prelude.{◌≡◌, ◌<◌, ◌^◌, IfOk, Some, length, slice_get};
ghost use Rattle.cut_certificate.specs.Answers.{Steps};
ghost use Rattle.cut_certificate.specs.Blocks.{edge_act, groups_of, split_by};
ghost use Rattle.cut_certificate.specs.Kept.{AreGroupsKept};
ghost use Rattle.cut_certificate.specs.Moves.{AreIncoming};
ghost use Rattle.cut_certificate.specs.Outgoing.{AreIndexed};
ghost use Rattle.cut_certificate.specs.Texts.{with_all_groups, ended, is_next_group, opening, with_blocks, with_head, with_members};

use crate::blocks::Blocks;
use crate::certificate::{Certificate, Split};
use crate::groups::groups_of;
use crate::mirrors::are_even;
use crate::outgoing::Placed;
use crate::refusal::{CutKind, CutRefusal, Stop};
use base_kit::{ActGraph, List, NoMemory};
use std::alloc::Global;
use std::marker::Model;

/// What may come next in the text of a certificate: the head, splits and then groups, groups, or nothing
/// more.
#[derive(Clone, Copy, Debug, PartialEq, Eq)]
pub enum Stage {
    Opening,
    Splitting,
    Naming,
    Closed,
}

/// The splits so far, the blocks behind them, and how many groups were named. From the first group on
/// the groups of these blocks are kept.
#[derive(Drop)]
pub(crate) struct Standing {
    stage: Stage,
    splits: List<Split>,
    blocks: Blocks,
    groups: List<List<u32>>,
    named: usize,
}

impl Model for Standing {
    ghost use Rattle.cut_certificate.specs.Texts.{Standing};
    ghost use Rattle.cut_certificate.specs.Kept.{AreGroupsKept};

    ghost Value = { Standing };

    ghost view = { λ s. record { stage = s.stage; splits = s.splits; blocks = s.blocks; named = s.named } };

    ghost invariant = { λ s. AreGroupsKept s.blocks.numbers s.groups s.stage };
}

// The groups of the blocks, which are kept from the first group on.
fn groups_at(
    alloc: Global,
    stage: Stage,
    blocks: &Blocks,
    groups: List<List<u32>>,
) -> Result<List<List<u32>>, NoMemory>
    requires few { length blocks.now.numbers < 2 ^ 32 }
    requires kept { AreGroupsKept blocks.now.numbers groups stage }
    ensures { IfOk result (λ g. g ≡ groups_of blocks.now.numbers) }
{
    match stage {
        Stage::Naming => Ok(groups),
        _ => groups_of(alloc, blocks.numbers()),
    }
}

// Whether the group of that place has exactly these members, in this order.
fn is_group(groups: &[List<u32>], place: usize, members: &[u32]) -> bool
    ensures { result ≡ is_next_group (slice_get groups.now place) members.now }
{
    match groups.get(place) {
        Some(group) => group.as_slice() == members,
        None => false,
    }
}

impl Standing {
    /// Nothing has been read.
    pub(crate) fn opening(alloc: Global, graph: &ActGraph) -> Result<Standing, NoMemory>
        ensures { IfOk result (λ s. s ≡ opening graph.now) }
    {
        let blocks = Blocks::first(alloc, graph)?;
        Ok(Standing {
            stage: Stage::Opening,
            splits: List::new(alloc),
            blocks,
            groups: List::new(alloc),
            named: 0,
        })
    }

    /// What may come next.
    pub(crate) fn stage(&self) -> Stage
        ensures { result ≡ self.now.stage }
    {
        self.stage
    }

    /// The head has been read too.
    pub(crate) fn with_head(self) -> Result<Standing, CutKind>
        ensures { result ≡ with_head self self.stage }
    {
        let Standing {
            stage,
            splits,
            blocks,
            groups,
            named,
        } = self;
        match stage {
            Stage::Opening => Ok(Standing {
                stage: Stage::Splitting,
                splits,
                blocks,
                groups,
                named,
            }),
            _ => Err(CutKind::BadForm),
        }
    }

    /// The split, whose edge has this act, has been made too.
    pub(crate) fn with_split(
        self,
        alloc: Global,
        graph: &ActGraph,
        outgoing: &[Vec<Placed>],
        incoming: &[Vec<Placed>],
        split: Split,
        act: u32,
    ) -> Result<Standing, Stop>
        requires stage { self.stage ≡ Stage.Splitting }
        requires index { AreIndexed graph.now outgoing.now }
        requires incoming { AreIncoming graph.now incoming.now }
        requires total { length self.blocks.numbers ≡ graph.now.count }
        requires act { act ≡ edge_act graph.now.edges split.edge }
        ensures { Steps result (with_blocks self split (split_by graph.now.edges self.blocks split)) }
    {
        let Standing {
            stage,
            mut splits,
            blocks,
            groups,
            named,
        } = self;
        let (blocks, fault) = blocks.split_by(alloc, graph, outgoing, incoming, split, act)?;
        if let Some(kind) = fault {
            return Err(Stop::Fault(kind));
        }
        splits.push(split)?;
        Ok(Standing {
            stage,
            splits,
            blocks,
            groups,
            named,
        })
    }

    /// The group of these members has been named too.
    pub(crate) fn with_members(self, alloc: Global, members: &[u32]) -> Result<Standing, Stop>
        requires { length self.blocks.numbers < 2 ^ 32 }
        ensures { Steps result (with_members self (Some members.now)) }
    {
        let Standing {
            stage,
            splits,
            blocks,
            groups,
            named,
        } = self;
        let groups = groups_at(alloc, stage, &blocks, groups)?;
        if !is_group(groups.as_slice(), named, members) {
            return Err(Stop::Fault(CutKind::WrongGroups));
        }
        Ok(Standing {
            stage: Stage::Naming,
            splits,
            blocks,
            groups,
            named: named + 1,
        })
    }

    /// The end has been read too.
    pub(crate) fn closed(
        self,
        alloc: Global,
        graph: &ActGraph,
        outgoing: &[Vec<Placed>],
    ) -> Result<Standing, Stop>
        requires index { AreIndexed graph.now outgoing.now }
        requires total { length self.blocks.numbers ≡ graph.now.count }
        requires few { length self.blocks.numbers < 2 ^ 32 }
        ensures { Steps result (with_all_groups graph.now.edges self) }
    {
        let Standing {
            stage,
            splits,
            blocks,
            groups,
            named,
        } = self;
        let groups = groups_at(alloc, stage, &blocks, groups)?;
        if named != groups.len() {
            return Err(Stop::Fault(CutKind::WrongGroups));
        }
        if !are_even(graph, outgoing, blocks.numbers(), groups.as_slice()) {
            return Err(Stop::Fault(CutKind::NotAdmissible));
        }
        Ok(Standing {
            stage: Stage::Closed,
            splits,
            blocks,
            groups,
            named,
        })
    }

    /// The certificate, if it has come to its end; else `NoEnd` at this line.
    pub(crate) fn ended(self, line: u32) -> Result<Certificate, CutRefusal>
        ensures { result ≡ ended line self self.stage }
    {
        let Standing {
            stage,
            splits,
            blocks: _,
            groups,
            named: _,
        } = self;
        match stage {
            Stage::Closed => Ok(Certificate { splits, groups }),
            _ => Err(CutRefusal::At {
                line,
                why: CutKind::NoEnd,
            }),
        }
    }
}
