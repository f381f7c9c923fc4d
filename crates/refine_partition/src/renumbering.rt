//! New numbers for the pieces of divided blocks.

ghost use Rattle.std.specs.Prelude.{◌≡◌, ◌≢◌, ℕ, ◌<◌, ◌^◌, ◌↔◌, All, IfOk, IsTrue, ◌+◌, ◌≤◌, false, length, slice_index};
ghost use Rattle.refine_partition.specs.Members.{AreBlocks};
ghost use Rattle.refine_partition.specs.Renumbering.{number_of_class, IsFreshNumber, IsNextNumber, IsNamedNow, IsRefined, IsQueueOf, IsRenumbered};

use base_kit::NoMemory;
use std::alloc::Global;

/// The number of each router's block after a split, and for each further piece the number of the block
/// that it is a piece of.
#[derive(Drop)]
pub struct Renumbering {
    pub numbers: Vec<u32>,
    pub origins: Vec<u32>,
}

/// Whether the router is the least member of its block.
fn is_least(numbers: &[u32], blocks: &[Vec<u32>], router: u32) -> bool
    requires blocks { AreBlocks numbers.now blocks.now }
    requires in_range { router < length numbers.now }
    requires known { slice_index numbers.now router < length blocks.now }
    ensures least { IsTrue result → (u : ℕ) → u < router → slice_index numbers.now u ≢ slice_index numbers.now router }
    ensures not_least { result ≡ false → (u : ℕ) × (u < router) × (slice_index numbers.now u ≡ slice_index numbers.now router) }
{
    let block = &blocks[numbers[router as usize] as usize];
    block[0] == router
}

/// The number of a class that has none yet: that of its block if the router is the least member, else
/// that of a further piece.
fn fresh_number(
    origins: &mut Vec<u32>,
    numbers: &[u32],
    blocks: &[Vec<u32>],
    router: u32,
    before: u32,
) -> Result<u32, NoMemory>
    requires blocks { AreBlocks numbers.now blocks.now }
    requires in_range { router < length numbers.now }
    requires known { slice_index numbers.now router < length blocks.now }
    requires fits { before + length origins.old.items < 2 ^ 32 }
    ensures { IfOk result (λ number. IsFreshNumber numbers.now router before origins.old.items origins.new.items number) }
{
    let block = numbers[router as usize];
    if is_least(numbers, blocks, router) {
        return Ok(block);
    }
    let number = before + origins.len() as u32;
    origins.push(block)?;
    Ok(number)
}

/// The number of the next router: that of its class, or a fresh one, which its class then has.
fn next_number(
    origins: &mut Vec<u32>,
    names: &mut Vec<Option<u32>>,
    class: usize,
    numbers: &[u32],
    blocks: &[Vec<u32>],
    router: u32,
    before: u32,
) -> Result<u32, NoMemory>
    requires class { class < length names.old.items }
    requires blocks { AreBlocks numbers.now blocks.now }
    requires in_range { router < length numbers.now }
    requires known { slice_index numbers.now router < length blocks.now }
    requires fits { before + length origins.old.items < 2 ^ 32 }
    ensures next { IfOk result (λ number. IsNextNumber (number_of_class names.old.items class) numbers.now router before origins.old.items origins.new.items number) }
    ensures named { IfOk result (λ number. IsNamedNow names.old.items names.new.items class number) }
{
    if let Some(number) = names[class] {
        return Ok(number);
    }
    let number = fresh_number(origins, numbers, blocks, router, before)?;
    names[class] = Some(number);
    Ok(number)
}

/// The numbers after the routers of the queue were renumbered by their classes.
pub fn renumbered(
    alloc: Global,
    numbers: &[u32],
    blocks: &[Vec<u32>],
    classes: &[usize],
    class_count: usize,
    queue: &[u32],
) -> Result<Renumbering, NoMemory>
    requires given { IsRefined numbers.now blocks.now classes.now class_count }
    requires fits { length numbers.now < 2 ^ 32 }
    requires queue { IsQueueOf numbers.now queue.now }
    ensures { IfOk result (λ r. IsRenumbered numbers.now classes.now queue.now (length blocks.now) r.numbers.items r.origins.items) }
{
    let before = blocks.len() as u32;
    let mut names = vec![in alloc; None; class_count]?;
    let mut next = Vec::from_slice(alloc, numbers)?;
    let mut origins = Vec::new(alloc);
    for router in queue {
        let class = classes[*router as usize];
        let number = next_number(
            &mut origins,
            &mut names,
            class,
            numbers,
            blocks,
            *router,
            before,
        )?;
        next[*router as usize] = number;
    }
    Ok(Renumbering {
        numbers: next,
        origins,
    })
}
