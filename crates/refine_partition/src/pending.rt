//! Refinement by a list of pending blocks.

ghost use Rattle.std.specs.Prelude.{◌≡◌, ℕ, ◌<◌, ◌≤◌, ◌+◌, ◌*◌, ◌^◌, All, Contains, IfOk, OnOk, length, slice_index};
ghost use Rattle.base_kit.specs.Partition.{IsCoarsestOn};
ghost use Rattle.refine_partition.specs.Index.{IsImportIndex};
ghost use Rattle.refine_partition.specs.Pending.{AreAllWaiting, AreMarked, IsWaiting, ArePiecesWaiting, AreAllTaken};

use crate::graph_view::GraphView;
use crate::imports::Import;
use crate::turn::{Workspace, start, turn};
use base_kit::{NoMemory, Steps};
use std::alloc::Global;
use std::collections::VecDeque;
use std::sync::ledger::Ledger;

/// Puts a block into the queue: a large one at the end whose turn comes last.
fn enqueue(queue: &mut VecDeque<u32>, block: u32, is_large: bool) -> Result<(), NoMemory>
    ensures { OnOk result (IsWaiting queue.old.items queue.new.items block) }
{
    if is_large {
        queue.push_front(block)?;
        return Ok(());
    }
    queue.push_back(block)?;
    Ok(())
}

/// Lets a block wait, if it does not yet.
fn wait(
    queue: &mut VecDeque<u32>,
    waits: &mut Vec<bool>,
    block: u32,
    is_large: bool,
) -> Result<(), NoMemory>
    requires known { block < length waits.old.items }
    requires marked { AreMarked queue.old.items waits.old.items }
    ensures size { length waits.new.items ≡ length waits.old.items }
    ensures marked { OnOk result (AreMarked queue.new.items waits.new.items) }
    ensures waiting { OnOk result (IsWaiting queue.old.items queue.new.items block) }
{
    if waits[block as usize] {
        return Ok(());
    }
    enqueue(queue, block, is_large)?;
    waits[block as usize] = true;
    Ok(())
}

/// All blocks wait.
fn all_waiting(alloc: Global, count: u32) -> Result<(VecDeque<u32>, Vec<bool>), NoMemory>
    ensures { IfOk result (λ r. AreAllWaiting count r.0.items r.1.items) }
{
    let mut queue = VecDeque::with_capacity(alloc, count as usize)?;
    let mut waits = Vec::with_capacity(alloc, count as usize)?;
    for block in 0..count {
        queue.push_back(block)?;
        waits.push(true)?;
    }
    Ok((queue, waits))
}

/// Lets all pieces of the divided blocks wait, the larger ones last.
fn add_pieces(
    queue: &mut VecDeque<u32>,
    waits: &mut Vec<bool>,
    lists: &[Vec<u32>],
    origins: &[u32],
) -> Result<(), NoMemory>
    requires known { All (λ origin. origin < length waits.old.items) origins.now }
    requires size { length waits.old.items + length origins.now ≡ length lists.now }
    requires few { length lists.now < 2 ^ 32 }
    requires marked { AreMarked queue.old.items waits.old.items }
    ensures size { OnOk result (length waits.new.items ≡ length lists.now) }
    ensures marked { OnOk result (AreMarked queue.new.items waits.new.items) }
    ensures waiting { OnOk result (ArePiecesWaiting queue.old.items queue.new.items (length waits.old.items) origins.now) }
{
    for origin in origins {
        let piece = waits.len() as u32;
        waits.push(false)?;
        let is_larger = lists[*origin as usize].len() > lists[piece as usize].len();
        wait(queue, waits, *origin, is_larger)?;
        wait(queue, waits, piece, !is_larger)?;
    }
    Ok(())
}

/// The number of each router's block after all turns, each of which is a split.
pub fn refined<L: Ledger>(
    alloc: Global,
    graph: &GraphView,
    imports: &[Vec<Import>],
    turns: &mut Steps<L>,
) -> Result<Vec<u32>, NoMemory>
    requires one_list_each { length imports.now ≡ graph.now.count }
    requires index { IsImportIndex graph.now.edges imports.now }
    ensures coarsest { IfOk result (λ numbers. IsCoarsestOn graph.now numbers.items) }
    ensures splits { IfOk result (λ numbers. (splits count : ℕ) × (turns.new ≡ turns.old + splits) × AreAllTaken graph.now splits numbers.items count) }
    ensures turns { turns.new ≤ turns.old + 2 * graph.now.count }
    ensures below { IfOk result (λ numbers. All (λ number. number < length numbers.items) numbers.items) }
{
    let count = graph.count();
    let mut blocks = start(alloc, graph)?;
    let (mut queue, mut waits) = all_waiting(alloc, blocks.lists.len() as u32)?;
    let mut work = Workspace::new(alloc, count)?;
    while let Some(block) = queue.pop_back() {
        waits[block as usize] = false;
        turn(alloc, graph, imports, &mut blocks, block, &mut work, turns)?;
        add_pieces(&mut queue, &mut waits, &blocks.lists, work.origins())?;
    }
    Ok(blocks.numbers)
}
