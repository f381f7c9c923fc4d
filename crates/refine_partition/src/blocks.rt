//! The members of numbered blocks.

ghost use Rattle.std.specs.Prelude.{◌≡◌, [], All, IfOk, ◌<◌, ◌^◌, length};
ghost use Rattle.refine_partition.specs.Members.{AreBlocks};

use base_kit::NoMemory;
use std::alloc::Global;

/// As many empty blocks.
fn empty_blocks(alloc: Global, count: u32) -> Result<Vec<Vec<u32>>, NoMemory>
    ensures total { IfOk result (λ v. length v.items ≡ count) }
    ensures empty { IfOk result (λ v. All (λ l. l.items ≡ []) v.items) }
{
    let mut blocks = Vec::with_capacity(alloc, count as usize)?;
    for _block in 0..count {
        blocks.push(Vec::new(alloc))?;
    }
    Ok(blocks)
}

/// The members of each block, ascending, by the numbers of the routers' blocks.
pub fn blocks_of(alloc: Global, numbers: &[u32], count: u32) -> Result<Vec<Vec<u32>>, NoMemory>
    requires fits { length numbers.now < 2 ^ 32 }
    requires below { All (λ number. number < count) numbers.now }
    ensures total { IfOk result (λ v. length v.items ≡ count) }
    ensures blocks { IfOk result (λ v. AreBlocks numbers.now v.items) }
{
    let mut blocks = empty_blocks(alloc, count)?;
    for router in 0..numbers.len() {
        blocks[numbers[router] as usize].push(router as u32)?;
    }
    Ok(blocks)
}
