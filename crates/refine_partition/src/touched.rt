//! The blocks that edges reach, and their members.

ghost use Rattle.std.specs.Prelude.{◌≡◌, ◌<◌, ◌-◌, ◌↔◌, All, Contains, IfOk, IsTrue, OnOk, Some, length, slice_get};
ghost use Rattle.std.specs.List.Sorted.{IsStrictlyIncreasing};
ghost use Rattle.refine_partition.specs.Members.{AreBlocks};
ghost use Rattle.refine_partition.specs.Touched.{AreTouched, IsQueue};

use base_kit::NoMemory;
use std::alloc::Global;

/// Whether the block is the last one of these.
fn is_last(blocks: &[u32], block: u32) -> bool
    ensures there { IsTrue result → Contains blocks.now block }
    ensures last { IsTrue result ↔ (slice_get blocks.now (length blocks.now - 1) ≡ Some block) }
{
    match blocks.last() {
        Some(last) => *last == block,
        None => false,
    }
}

/// Whether each block stands before the next.
fn are_in_order(blocks: &[u32]) -> bool
    ensures { IsTrue result → IsStrictlyIncreasing blocks.now }
{
    for place in 1..blocks.len() {
        if blocks[place] <= blocks[place - 1] {
            return false;
        }
    }
    true
}

/// Fills the list with the numbers of the blocks of the routers, ascending.
pub fn list_touched(blocks: &mut Vec<u32>, numbers: &[u32], routers: &[u32]) -> Result<(), NoMemory>
    requires in_range { All (λ u. u < length numbers.now) routers.now }
    ensures in_order { OnOk result (IsStrictlyIncreasing blocks.new.items) }
    ensures touched { OnOk result (AreTouched numbers.now routers.now blocks.new.items) }
{
    blocks.clear();
    for router in routers {
        let block = numbers[*router as usize];
        if !is_last(blocks, block) {
            blocks.push(block)?;
        }
    }
    if are_in_order(blocks) {
        return Ok(());
    }
    blocks.sort()?;
    blocks.dedup();
    Ok(())
}

/// The members of these blocks, in the order of the blocks and within each block ascending.
pub fn queue_of(
    alloc: Global,
    numbers: &[u32],
    blocks: &[Vec<u32>],
    touched: &[u32],
) -> Result<Vec<u32>, NoMemory>
    requires blocks { AreBlocks numbers.now blocks.now }
    requires in_range { All (λ block. block < length blocks.now) touched.now }
    requires in_order { IsStrictlyIncreasing touched.now }
    ensures { IfOk result (λ v. IsQueue numbers.now touched.now v.items) }
{
    let mut queue = Vec::new(alloc);
    for block in touched {
        queue.extend_from_slice(&blocks[*block as usize])?;
    }
    Ok(queue)
}
