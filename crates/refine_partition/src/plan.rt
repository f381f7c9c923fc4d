//! What a split by one block changes.

ghost use Rattle.std.specs.Prelude.{◌≡◌, ◌<◌, ◌^◌, IfOk, length};
ghost use Rattle.refine_partition.specs.Index.{IsImportIndex};
ghost use Rattle.refine_partition.specs.Planned.{AreNumbered, IsPlanned};

use crate::arrivals::{Arrivals, list_arrivals};
use crate::class_names::ClassNames;
use crate::classes::{divide_classes, widened};
use crate::graph_view::GraphView;
use crate::imports::Import;
use crate::renumbering::{Renumbering, renumbered};
use crate::touched::{list_touched, queue_of};
use base_kit::NoMemory;
use std::alloc::Global;

/// The numbers after a split, and the blocks whose members it looked at.
#[derive(Drop)]
pub struct Plan {
    pub renumbering: Renumbering,
    pub touched: Vec<u32>,
}

/// What a split by the block changes.
pub fn planned(
    alloc: Global,
    graph: &GraphView,
    numbers: &[u32],
    blocks: &[Vec<u32>],
    imports: &[Vec<Import>],
    taken: u32,
) -> Result<Plan, NoMemory>
    requires one_number_each { length numbers.now ≡ graph.now.count }
    requires numbered { AreNumbered numbers.now blocks.now }
    requires few { length blocks.now < 2 ^ 32 }
    requires one_list_each { length imports.now ≡ graph.now.count }
    requires index { IsImportIndex graph.now.edges imports.now }
    requires known { taken < length blocks.now }
    ensures { IfOk result (λ p. IsPlanned graph.now taken numbers.now (length blocks.now) p.renumbering.numbers.items p.renumbering.origins.items p.touched.items) }
{
    let members = &blocks[taken as usize];
    let mut arrivals = Arrivals::new(alloc, graph.count())?;
    list_arrivals(&mut arrivals, graph, imports, numbers, members, taken)?;
    let count = blocks.len() as u32;
    let mut classes = widened(alloc, numbers)?;
    let mut reached = Vec::new(alloc);
    let mut names = ClassNames::new(alloc);
    let class_count = divide_classes(
        &mut classes,
        &mut reached,
        &mut names,
        &arrivals.list,
        count,
    )?;
    let mut touched = Vec::new(alloc);
    list_touched(&mut touched, numbers, &reached)?;
    let queue = queue_of(alloc, numbers, blocks, &touched)?;
    let renumbering = renumbered(alloc, numbers, blocks, &classes, class_count, &queue)?;
    Ok(Plan {
        renumbering,
        touched,
    })
}
