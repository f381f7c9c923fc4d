//! Splits by one block after another, small ones first. The splits here need not be complete: the caller
//! goes over all routers afterwards and splits what is still uneven.

ghost use Rattle.std.specs.Prelude.{◌≡◌, IfOk};
ghost use Rattle.cut_certificate.specs.Moves.{AreIncoming, IsCourse};
ghost use Rattle.cut_certificate.specs.Outgoing.{AreIndexed};

use crate::blocks::Blocks;
use crate::certificate::Split;
use crate::course::{Course, with_split};
use crate::outgoing::Placed;
use base_kit::{ActGraph, NoMemory};
use std::alloc::Global;
use std::collections::VecDeque;

/// A router of a block that an edge reaches.
#[derive(Clone, Copy)]
struct Reach {
    block: usize,
    router: u32,
    place: u32,
}

/// Blocks whose turn comes.
#[derive(Drop)]
struct Pending {
    queue: VecDeque<u32>,
    waits: Vec<bool>,
}

fn number_of(numbers: &[usize], router: u32) -> usize {
    match numbers.get(router as usize) {
        Some(number) => *number,
        None => 0,
    }
}

// There are no more blocks than routers.
fn narrowed(number: usize) -> u32 {
    number.min(u32::MAX as usize) as u32
}

fn list_len(blocks: &Blocks, block: usize) -> usize {
    match blocks.list_of(block) {
        Some(list) => list.len(),
        None => 0,
    }
}

// Adds the edges that lead out of the block.
fn add_leaving(
    arrivals: &mut Vec<Placed>,
    edges: &[Placed],
    numbers: &[usize],
    block: usize,
) -> Result<(), NoMemory> {
    for p in edges {
        if number_of(numbers, p.edge.importer) != block {
            arrivals.push(*p)?;
        }
    }
    Ok(())
}

// The edges into a block from outside it by their acts, and those of one act by their importers.
fn arrivals_at(
    alloc: Global,
    incoming: &[Vec<Placed>],
    blocks: &Blocks,
    block: usize,
) -> Result<Vec<Placed>, NoMemory> {
    let numbers = blocks.numbers();
    let mut arrivals = Vec::new(alloc);
    let Some(list) = blocks.list_of(block) else {
        return Ok(arrivals);
    };
    for exporter in list.as_slice() {
        if number_of(numbers, *exporter) == block {
            if let Some(edges) = incoming.get(*exporter as usize) {
                add_leaving(&mut arrivals, edges, numbers, block)?;
            }
        }
    }
    arrivals.sort_by_key(|p| p.edge.importer)?;
    arrivals.sort_by_key(|p| p.edge.act)?;
    Ok(arrivals)
}

fn ends_act(arrivals: &[Placed], place: usize) -> bool {
    match (arrivals.get(place), arrivals.get(place.saturating_add(1))) {
        (Some(here), Some(next)) => here.edge.act != next.edge.act,
        _ => true,
    }
}

fn ends_block(reached: &[Reach], place: usize) -> bool {
    match (reached.get(place), reached.get(place.saturating_add(1))) {
        (Some(here), Some(next)) => here.block != next.block,
        _ => true,
    }
}

fn ends_router(reached: &[Reach], place: usize) -> bool {
    match (reached.get(place), reached.get(place.saturating_add(1))) {
        (Some(here), Some(next)) => here.block != next.block || here.router != next.router,
        _ => true,
    }
}

// Splits a block in which edges reach so many members, unless these are all that are listed.
fn with_block(
    alloc: Global,
    graph: &ActGraph,
    outgoing: &[Vec<Placed>],
    incoming: &[Vec<Placed>],
    course: Course,
    by: u32,
    reach: Reach,
    members: usize,
) -> Result<Course, NoMemory>
    requires index { AreIndexed graph.now outgoing.now }
    requires incoming { AreIncoming graph.now incoming.now }
    requires course { IsCourse graph.now course.blocks course.splits }
    ensures { IfOk result (λ c. IsCourse graph.now c.blocks c.splits) }
{
    if members >= list_len(&course.blocks, reach.block) {
        return Ok(course);
    }
    let split = Split {
        block: narrowed(reach.block),
        by,
        edge: reach.place,
    };
    with_split(alloc, graph, outgoing, incoming, course, split)
}

// Splits each block in which edges of one act reach some of the listed members, but not all.
fn with_reached(
    alloc: Global,
    graph: &ActGraph,
    outgoing: &[Vec<Placed>],
    incoming: &[Vec<Placed>],
    before: Course,
    by: u32,
    reached: &mut Vec<Reach>,
) -> Result<Course, NoMemory>
    requires index { AreIndexed graph.now outgoing.now }
    requires incoming { AreIncoming graph.now incoming.now }
    requires course { IsCourse graph.now before.blocks before.splits }
    ensures { IfOk result (λ c. IsCourse graph.now c.blocks c.splits) }
{
    reached.sort_by_key(|r| r.block)?;
    let mut course = before;
    let mut members: usize = 0;
    for place in 0..reached.len() {
        if ends_router(reached, place) {
            members = members.saturating_add(1);
        }
        if ends_block(reached, place) {
            let reach = reached[place];
            course = with_block(alloc, graph, outgoing, incoming, course, by, reach, members)?;
            members = 0;
        }
    }
    Ok(course)
}

// Splits the other blocks by the edges into this one.
fn turn(
    alloc: Global,
    graph: &ActGraph,
    outgoing: &[Vec<Placed>],
    incoming: &[Vec<Placed>],
    before: Course,
    by: u32,
) -> Result<Course, NoMemory>
    requires index { AreIndexed graph.now outgoing.now }
    requires incoming { AreIncoming graph.now incoming.now }
    requires course { IsCourse graph.now before.blocks before.splits }
    ensures { IfOk result (λ c. IsCourse graph.now c.blocks c.splits) }
{
    let arrivals = arrivals_at(alloc, incoming, &before.blocks, by as usize)?;
    let mut course = before;
    let mut reached = Vec::new(alloc);
    for place in 0..arrivals.len() {
        let p = arrivals[place];
        reached.push(Reach {
            block: number_of(course.blocks.numbers(), p.edge.importer),
            router: p.edge.importer,
            place: p.place,
        })?;
        if ends_act(&arrivals, place) {
            course = with_reached(alloc, graph, outgoing, incoming, course, by, &mut reached)?;
            reached.clear();
        }
    }
    Ok(course)
}

// Lets a block wait, if it does not yet: a large one where its turn comes last.
fn wait(pending: &mut Pending, block: u32, is_large: bool) -> Result<(), NoMemory> {
    let place = block as usize;
    if place >= pending.waits.len() || pending.waits[place] {
        return Ok(());
    }
    pending.waits[place] = true;
    if is_large {
        pending.queue.push_front(block)?;
    } else {
        pending.queue.push_back(block)?;
    }
    Ok(())
}

// Lets both parts of each block wait, for the blocks that the splits from a place on divided.
fn add_parts(pending: &mut Pending, course: &Course, from: usize) -> Result<(), NoMemory> {
    let splits = course.splits.as_slice();
    for place in from..splits.len() {
        let block = splits[place].block;
        let part = pending.waits.len();
        pending.waits.push(false)?;
        let is_larger = list_len(&course.blocks, block as usize) > list_len(&course.blocks, part);
        wait(pending, block, is_larger)?;
        wait(pending, narrowed(part), !is_larger)?;
    }
    Ok(())
}

// All blocks wait.
fn all_waiting(alloc: Global, count: usize) -> Result<Pending, NoMemory> {
    let mut queue = VecDeque::new(alloc);
    let mut waits = Vec::new(alloc);
    waits.push(false)?;
    for block in 0..count {
        queue.push_back(narrowed(block + 1))?;
        waits.push(true)?;
    }
    Ok(Pending { queue, waits })
}

/// Splits while a block waits for its turn. There are at most two turns for each router.
pub(crate) fn with_turns(
    alloc: Global,
    graph: &ActGraph,
    outgoing: &[Vec<Placed>],
    incoming: &[Vec<Placed>],
    first: Course,
) -> Result<Course, NoMemory>
    requires index { AreIndexed graph.now outgoing.now }
    requires incoming { AreIncoming graph.now incoming.now }
    requires course { IsCourse graph.now first.blocks first.splits }
    ensures { IfOk result (λ c. IsCourse graph.now c.blocks c.splits) }
{
    let mut pending = all_waiting(alloc, first.blocks.count())?;
    let mut course = first;
    for _turn in 0..2 * graph.count as usize {
        let Some(block) = pending.queue.pop_back() else {
            return Ok(course);
        };
        if (block as usize) < pending.waits.len() {
            pending.waits[block as usize] = false;
        }
        let from = course.splits.len();
        course = turn(alloc, graph, outgoing, incoming, course, block)?;
        add_parts(&mut pending, &course, from)?;
    }
    Ok(course)
}
