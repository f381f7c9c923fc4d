//! Splits that go on as long as some block is not even.

ghost use Rattle.std.specs.Prelude.{◌≡◌, ◌<◌, ◌≤◌, ◌-◌, ◌^◌, ◌++◌, ◌∷◌, [], All, IfOk, MatchOption, Ok, OnOk, length, slice_index, slice_set, true};
ghost use Rattle.cut_certificate.specs.Blocks.{first_blocks, split_by};
ghost use Rattle.cut_certificate.specs.Certificates.{AreAfter, IsAccepted};
ghost use Rattle.cut_certificate.specs.Evenness.{mirror_each_other};
ghost use Rattle.cut_certificate.specs.InUse.{AreInUse};
ghost use Rattle.cut_certificate.specs.Moves.{AreIncoming, IsCourse};
ghost use Rattle.cut_certificate.specs.Outgoing.{AreIndexed};
ghost use Rattle.cut_certificate.specs.Uneven.{AreEvenFrom, AreLeaders, AreMirrored, IsParting, IsSplitBy};

use crate::blocks::Blocks;
use crate::certificate::{Certificate, Split};
use crate::course::{Course, first_course};
use crate::groups::groups_of;
use crate::incoming::by_exporter;
use crate::mirrors::unmatched;
use crate::outgoing::{Placed, by_importer};
use crate::turns::with_turns;
use base_kit::{ActGraph, List, NoMemory};
use std::alloc::Global;

/// An edge that parts a block: one member has it and goes, another member has no twin of it and stays.
#[derive(Clone, Copy)]
pub(crate) struct Parting {
    pub(crate) goes: u32,
    pub(crate) stays: u32,
    pub(crate) by: Placed,
}

// A member of each block.
fn leaders(alloc: Global, numbers: &[usize], count: usize) -> Result<Vec<u32>, NoMemory>
    requires few { length numbers.now < 2 ^ 32 }
    requires known { All (λ number. (0 < number) × (number ≤ count)) numbers.now }
    ensures total { IfOk result (λ v. length v.items ≡ count) }
    ensures leaders { IfOk result (λ v. AreLeaders numbers.now v.items) }
{
    let mut leaders = vec![in alloc; 0; count]?;
    for router in 0..numbers.len() {
        leaders[numbers[router] - 1] = router as u32;
    }
    Ok(leaders)
}

// An edge of one of two members of a block; the other member has no twin of it.
fn what_parts(
    graph: &ActGraph,
    outgoing: &[Vec<Placed>],
    numbers: &[usize],
    router: u32,
    other: u32,
) -> Option<Parting>
    requires index { AreIndexed graph.now outgoing.now }
    requires total { length numbers.now ≡ graph.now.count }
    requires router { router < graph.now.count }
    requires other { other < graph.now.count }
    requires together { slice_index numbers.now router ≡ slice_index numbers.now other }
    ensures { MatchOption result (mirror_each_other graph.now.edges numbers.now router other ≡ true) (IsParting graph.now.edges numbers.now) }
{
    if router == other {
        return None;
    }
    if let Some(by) = unmatched(graph, outgoing, numbers, router, other) {
        return Some(Parting {
            goes: router,
            stays: other,
            by,
        });
    }
    let by = unmatched(graph, outgoing, numbers, other, router)?;
    Some(Parting {
        goes: other,
        stays: router,
        by,
    })
}

// The first router from a place on that differs from the leader of its block, and what parts the two.
fn next_parting(
    graph: &ActGraph,
    outgoing: &[Vec<Placed>],
    numbers: &[usize],
    leaders: &[u32],
    from: u32,
) -> Option<(u32, Parting)>
    requires index { AreIndexed graph.now outgoing.now }
    requires total { length numbers.now ≡ graph.now.count }
    requires known { All (λ number. (0 < number) × (number ≤ length leaders.now)) numbers.now }
    requires leaders { AreLeaders numbers.now leaders.now }
    ensures { MatchOption result (AreEvenFrom graph.now.edges numbers.now leaders.now from) (λ f. IsParting graph.now.edges numbers.now f.1) }
{
    for router in from..graph.count {
        let leader = leaders[numbers[router as usize] - 1];
        if let Some(p) = what_parts(graph, outgoing, numbers, leader, router) {
            return Some((router, p));
        }
    }
    None
}

// The blocks after the split by an edge that parts a block.
fn divided(
    alloc: Global,
    graph: &ActGraph,
    outgoing: &[Vec<Placed>],
    incoming: &[Vec<Placed>],
    blocks: Blocks,
    p: Parting,
) -> Result<(Blocks, Split), NoMemory>
    requires index { AreIndexed graph.now outgoing.now }
    requires incoming { AreIncoming graph.now incoming.now }
    requires total { length blocks.numbers ≡ graph.now.count }
    requires few { graph.now.count < 2 ^ 32 }
    requires parting { IsParting graph.now.edges blocks.numbers p }
    ensures made { IfOk result (λ r. split_by graph.now.edges blocks r.1 ≡ Ok r.0) }
    ensures by { IfOk result (λ r. IsSplitBy blocks.numbers p r.1) }
    ensures place { IfOk result (λ r. r.1.edge < length graph.now.edges) }
    ensures in_use { IfOk result (λ r. AreInUse r.0.numbers r.0.count) }
{
    let _known = blocks.count();
    let block = blocks.number_of(p.goes);
    let by = blocks.number_of(p.by.edge.exporter);
    let edge = p.by.place;
    let split = Split { block, by, edge };
    let (next, fault) = blocks.split_by(alloc, graph, outgoing, incoming, split, p.by.edge.act)?;
    match fault {
        None => {
            let _known = next.count();
            Ok((next, split))
        }
        Some(_) => unreachable!(),
    }
}

// The member that stays leads the divided block, and the one that goes the next block.
fn lead(leaders: &mut Vec<u32>, block: u32, p: Parting) -> Result<(), NoMemory>
    requires some { 0 < block }
    requires known { block ≤ length leaders.old.items }
    ensures { OnOk result (leaders.new.items ≡ slice_set leaders.old.items (block - 1) p.stays ++ p.goes ∷ []) }
{
    leaders[block as usize - 1] = p.stays;
    leaders.push(p.goes)?;
    Ok(())
}

// Splits until all blocks are even.
fn refined(
    alloc: Global,
    graph: &ActGraph,
    outgoing: &[Vec<Placed>],
    incoming: &[Vec<Placed>],
    course: Course,
) -> Result<(Blocks, List<Split>), NoMemory>
    requires index { AreIndexed graph.now outgoing.now }
    requires incoming { AreIncoming graph.now incoming.now }
    requires course { IsCourse graph.now course.blocks course.splits }
    requires few { graph.now.count < 2 ^ 32 }
    ensures after { IfOk result (λ r. AreAfter graph.now (first_blocks graph.now) r.1 r.0) }
    ensures even { IfOk result (λ r. AreMirrored graph.now.edges r.0.numbers) }
    ensures few { IfOk result (λ r. length r.1 ≤ graph.now.count) }
{
    let Course {
        mut blocks,
        mut splits,
    } = course;
    let mut count = blocks.count();
    let mut leaders = leaders(alloc, blocks.numbers(), count)?;
    let mut from = 0;
    'splitting: loop {
        match next_parting(graph, outgoing, blocks.numbers(), &leaders, from) {
            Some((router, p)) => {
                let (next, split) = divided(alloc, graph, outgoing, incoming, blocks, p)?;
                lead(&mut leaders, split.block, p)?;
                splits.push(split)?;
                count = next.count();
                blocks = next;
                from = router;
            }
            None => {
                if from == 0 {
                    return Ok((blocks, splits));
                }
                from = 0;
            }
        }
    }
}

/// A certificate of the graph that is accepted, with at most as many splits as routers. If a large block
/// is split by a smaller one, the members that stay are not looked at.
pub fn certify(alloc: Global, graph: &ActGraph) -> Result<Certificate, NoMemory>
    ensures accepted { IfOk result (IsAccepted graph.now) }
    ensures few { IfOk result (λ c. length c.splits ≤ graph.now.count) }
{
    let _known = graph.count;
    let outgoing = by_importer(alloc, graph)?;
    let incoming = by_exporter(alloc, graph)?;
    let first = first_course(alloc, graph)?;
    let course = with_turns(alloc, graph, &outgoing, &incoming, first)?;
    let (blocks, splits) = refined(alloc, graph, &outgoing, &incoming, course)?;
    let groups = groups_of(alloc, blocks.numbers())?;
    Ok(Certificate { splits, groups })
}
