//! Dividing blocks by the edges into one of them.

ghost use Rattle.std.specs.Prelude.{◌≡◌, ◌<◌, ◌+◌, ◌^◌, All, IfOk, OnOk, OnErr, filter, length};
ghost use Rattle.std.specs.List.Sorted.{IsStrictlyIncreasing};
ghost use Rattle.refine_partition.specs.Index.{IsImportIndex};
ghost use Rattle.refine_partition.specs.Kept.{is_numbered, AreFurther, AreKept};
ghost use Rattle.refine_partition.specs.Planned.{AreNumbered};
ghost use Rattle.refine_partition.specs.Splits.{IsSplit};

use crate::graph_view::GraphView;
use crate::imports::Import;
use crate::plan::planned;
use base_kit::NoMemory;
use std::alloc::Global;

/// Whether the router's block has this number.
pub fn has_number(numbers: &[u32], router: u32, number: u32) -> bool
    ensures { result ≡ is_numbered numbers.now number router }
{
    (router as usize) < numbers.len() && numbers[router as usize] == number
}

/// The members whose block has this number.
fn members_with(
    alloc: Global,
    members: &[u32],
    numbers: &[u32],
    number: u32,
) -> Result<Vec<u32>, NoMemory>
    ensures { IfOk result (λ v. v.items ≡ filter (is_numbered numbers.now number) members.now) }
{
    let mut found = Vec::from_slice(alloc, members)?;
    found.retain(|router| has_number(numbers, *router, number));
    Ok(found)
}

/// The members of the further blocks, by the blocks that they come from.
fn further_blocks(
    alloc: Global,
    blocks: &[Vec<u32>],
    numbers: &[u32],
    origins: &[u32],
) -> Result<Vec<Vec<u32>>, NoMemory>
    requires known { All (λ origin. origin < length blocks.now) origins.now }
    requires few { length blocks.now + length origins.now < 2 ^ 32 }
    ensures total { IfOk result (λ v. length v.items ≡ length origins.now) }
    ensures further { IfOk result (λ v. AreFurther numbers.now origins.now blocks.now v.items) }
{
    let mut further = Vec::with_capacity(alloc, origins.len())?;
    for origin in origins {
        let number = (blocks.len() + further.len()) as u32;
        let members = members_with(alloc, &blocks[*origin as usize], numbers, number)?;
        further.push(members)?;
    }
    Ok(further)
}

/// Leaves each touched block the members that have its number.
fn keep_members(blocks: &mut Vec<Vec<u32>>, numbers: &[u32], touched: &[u32])
    requires known { All (λ block. block < length blocks.old.items) touched.now }
    requires in_order { IsStrictlyIncreasing touched.now }
    ensures { AreKept numbers.now touched.now blocks.old.items blocks.new.items }
{
    for block in touched {
        let number = *block;
        blocks[number as usize].retain(|router| has_number(numbers, *router, number));
    }
}

/// Divides all other blocks by the edges into the taken one. After an error nothing has changed.
pub fn divide(
    alloc: Global,
    graph: &GraphView,
    numbers: &mut Vec<u32>,
    blocks: &mut Vec<Vec<u32>>,
    imports: &[Vec<Import>],
    taken: u32,
) -> Result<(), NoMemory>
    requires one_number_each { length numbers.old.items ≡ graph.now.count }
    requires numbered { AreNumbered numbers.old.items blocks.old.items }
    requires few { length blocks.old.items < 2 ^ 32 }
    requires one_list_each { length imports.now ≡ graph.now.count }
    requires index { IsImportIndex graph.now.edges imports.now }
    requires known { taken < length blocks.old.items }
    ensures numbered { AreNumbered numbers.new.items blocks.new.items }
    ensures few { length blocks.new.items < 2 ^ 32 }
    ensures ok { OnOk result (IsSplit graph.now taken numbers.old.items numbers.new.items (length blocks.old.items) (length blocks.new.items)) }
    ensures numbers_err { OnErr result (numbers.new.items ≡ numbers.old.items) }
    ensures blocks_err { OnErr result (blocks.new.items ≡ blocks.old.items) }
{
    let _known = graph.count();
    let plan = planned(alloc, graph, numbers, blocks, imports, taken)?;
    let next = plan.renumbering.numbers;
    let origins = plan.renumbering.origins;
    let mut further = further_blocks(alloc, blocks, &next, &origins)?;
    blocks.append(&mut further)?;
    keep_members(blocks, &next, &plan.touched);
    *numbers = next;
    Ok(())
}
