//! A turn of the refinement, which goes over the routers listed in one block and their outgoing edges.

ghost use Rattle.std.specs.Prelude.{◌≡◌, ℕ, ◌<◌, ◌+◌, ◌≤◌, IfOk, OnOk, Vec, length, slice_index_or};
ghost use Rattle.std.specs.declared.alloc.Global.{Global as TheGlobal};
ghost use Rattle.refine_partition.specs.Index.{IsImportIndex};
ghost use Rattle.refine_partition.specs.Loose.{AreListed, AreParted, AreSettled, IsDividedAsSplit};
ghost use Rattle.refine_partition.specs.Members.{AreBlockMembers};
ghost use Rattle.refine_partition.specs.Splits.{IsStart};

use crate::arrivals::{Arrivals, list_arrivals};
use crate::blocks::blocks_of;
use crate::class_names::ClassNames;
use crate::classes::{divide_classes, widened};
use crate::division::has_number;
use crate::graph_view::GraphView;
use crate::imports::Import;
use crate::moves::{Pieces, move_reached, settle};
use crate::numbering::numbers_of;
use crate::touched::list_touched;
use base_kit::{NoMemory, Steps};
use std::alloc::Global;
use std::sync::ledger::Ledger;

/// Routers in numbered blocks. The list of a block has all its members, in any order, and maybe routers
/// that have left it: each is dropped where it is met. The class of a router is its block between turns.
#[derive(Drop)]
pub struct LooseBlocks {
    pub numbers: Vec<u32>,
    pub lists: Vec<Vec<u32>>,
    pub classes: Vec<usize>,
}

/// Lists that each turn fills anew, in the memory of the turn before.
#[derive(Drop)]
pub struct Workspace {
    arrivals: Arrivals,
    reached: Vec<u32>,
    touched: Vec<u32>,
    names: ClassNames<usize>,
    pieces: Pieces,
}

impl Workspace {
    /// Empty lists, for so many routers.
    pub fn new(alloc: Global, count: u32) -> Result<Self, NoMemory>
        ensures { IfOk result (λ work. length work.arrivals.places.items ≡ count) }
    {
        Ok(Workspace {
            arrivals: Arrivals::new(alloc, count)?,
            reached: Vec::new(alloc),
            touched: Vec::new(alloc),
            names: ClassNames::new(alloc),
            pieces: Pieces::new(alloc),
        })
    }

    /// For each new piece the block that it comes from.
    pub fn origins(&self) -> &[u32]
        ensures { result.now ≡ self.now.pieces.origins.items }
    {
        &self.pieces.origins
    }
}

/// One block per color.
pub fn start(alloc: Global, graph: &GraphView) -> Result<LooseBlocks, NoMemory>
    ensures start { IfOk result (λ b. IsStart graph.now b.numbers.items (length b.lists.items)) }
    ensures settled { IfOk result (λ b. AreSettled b.numbers.items b.classes.items b.lists.items) }
{
    let _known = graph.count();
    let (numbers, count) = numbers_of(alloc, graph.colors())?;
    let lists = blocks_of(alloc, &numbers, count)?;
    let classes = widened(alloc, &numbers)?;
    Ok(LooseBlocks {
        numbers,
        lists,
        classes,
    })
}

/// Drops from the list of a block the routers that have left it.
fn keep_members(lists: &mut Vec<Vec<u32>>, numbers: &[u32], block: u32)
    requires listed { AreListed numbers.now lists.old.items }
    requires known { block < length lists.old.items }
    ensures total { length lists.new.items ≡ length lists.old.items }
    ensures listed { AreListed numbers.now lists.new.items }
    ensures members { (d : Vec ℕ TheGlobal) → AreBlockMembers numbers.now block (slice_index_or lists.new.items block d).items }
{
    lists[block as usize].retain(|router| has_number(numbers, *router, block));
}

/// Divides all other blocks by the acts of their members' edges into the taken one, which counts as one
/// step, and lists for each new piece the block that it comes from. Whatever numbers the blocks had,
/// this is the split of a `Splitting`, number for number. The numbers here are other ones: members that
/// no edge reaches keep theirs, even if the least member leaves them, so that nobody looks at them.
pub fn turn<L: Ledger>(
    alloc: Global,
    graph: &GraphView,
    imports: &[Vec<Import>],
    blocks: &mut LooseBlocks,
    taken: u32,
    work: &mut Workspace,
    turns: &mut Steps<L>,
) -> Result<(), NoMemory>
    requires one_number_each { length blocks.old.numbers.items ≡ graph.now.count }
    requires settled { AreSettled blocks.old.numbers.items blocks.old.classes.items blocks.old.lists.items }
    requires few { length blocks.old.lists.items ≤ graph.now.count }
    requires one_list_each { length imports.now ≡ graph.now.count }
    requires index { IsImportIndex graph.now.edges imports.now }
    requires known { taken < length blocks.old.lists.items }
    requires one_place_each { length work.old.arrivals.places.items ≡ graph.now.count }
    ensures tick { turns.new ≡ turns.old + 1 }
    ensures places { length work.new.arrivals.places.items ≡ length work.old.arrivals.places.items }
    ensures settled { OnOk result (AreSettled blocks.new.numbers.items blocks.new.classes.items blocks.new.lists.items) }
    ensures split { OnOk result (IsDividedAsSplit graph.now taken blocks.old.numbers.items blocks.new.numbers.items (length blocks.old.lists.items) (length blocks.new.lists.items)) }
    ensures parted { OnOk result (AreParted graph.now taken blocks.old.numbers.items blocks.new.numbers.items (length blocks.old.lists.items) (length blocks.new.lists.items) work.new.pieces.origins.items) }
{
    turns.tick();
    let _known = graph.count();
    let count = blocks.lists.len() as u32;
    keep_members(&mut blocks.lists, &blocks.numbers, taken);
    let members = &blocks.lists[taken as usize];
    list_arrivals(
        &mut work.arrivals,
        graph,
        imports,
        &blocks.numbers,
        members,
        taken,
    )?;
    let _next = divide_classes(
        &mut blocks.classes,
        &mut work.reached,
        &mut work.names,
        &work.arrivals.list,
        count,
    )?;
    list_touched(&mut work.touched, &blocks.numbers, &work.reached)?;
    move_reached(
        alloc,
        &mut work.pieces,
        &mut blocks.numbers,
        &mut blocks.lists,
        &blocks.classes,
        &work.touched,
        &work.reached,
    )?;
    settle(&mut blocks.classes, &blocks.numbers, &work.reached);
    Ok(())
}
