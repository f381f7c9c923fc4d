//! Splits as they are made, and the blocks to which they lead.

ghost use Rattle.std.specs.Prelude.{◌≡◌, IfOk};
ghost use Rattle.cut_certificate.specs.Moves.{AreIncoming, IsCourse};
ghost use Rattle.cut_certificate.specs.Outgoing.{AreIndexed};

use crate::blocks::Blocks;
use crate::certificate::Split;
use crate::outgoing::Placed;
use base_kit::{ActGraph, List, NoMemory};
use std::alloc::Global;

/// Splits from the first blocks on, and the blocks after them.
#[derive(Drop)]
pub(crate) struct Course {
    pub(crate) blocks: Blocks,
    pub(crate) splits: List<Split>,
}

/// No split yet.
pub(crate) fn first_course(alloc: Global, graph: &ActGraph) -> Result<Course, NoMemory>
    ensures { IfOk result (λ c. IsCourse graph.now c.blocks c.splits) }
{
    let blocks = Blocks::first(alloc, graph)?;
    Ok(Course {
        blocks,
        splits: List::new(alloc),
    })
}

/// The split has been made too, where it can be.
pub(crate) fn with_split(
    alloc: Global,
    graph: &ActGraph,
    outgoing: &[Vec<Placed>],
    incoming: &[Vec<Placed>],
    course: Course,
    split: Split,
) -> Result<Course, NoMemory>
    requires index { AreIndexed graph.now outgoing.now }
    requires incoming { AreIncoming graph.now incoming.now }
    requires course { IsCourse graph.now course.blocks course.splits }
    ensures { IfOk result (λ c. IsCourse graph.now c.blocks c.splits) }
{
    let place = split.edge as usize;
    if place >= graph.edges.len() {
        return Ok(course);
    }
    let act = graph.edges.as_slice()[place].act;
    let Course { blocks, mut splits } = course;
    let (blocks, fault) = blocks.split_by(alloc, graph, outgoing, incoming, split, act)?;
    if fault.is_none() {
        splits.push(split)?;
    }
    Ok(Course { blocks, splits })
}
