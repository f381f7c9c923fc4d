//! The groups of a graph of one's own.

ghost use Rattle.std.specs.Prelude.{◌≡◌, ◌<◌, IfOk, length};
ghost use Rattle.base_kit.specs.Partition.{IsCoarsestOn};

use base_kit::{ActGraph, NoMemory, Steps};
use refine_partition::{Partition, coarsest};
use std::alloc::Global;
use std::marker::Brand;
use std::sync::ledger::{Blank, Ledger};

// The groups, with the turns that it took counted for a ledger.
fn counted<L: Ledger>(alloc: Global, graph: &ActGraph, blank: Blank) -> Result<Partition, NoMemory>
    requires name { blank.name ≡ L.name }
    requires parts { blank.parts ≡ L.parts }
    requires some { 0 < L.parts }
    ensures { IfOk result (λ p. IsCoarsestOn graph.now p) }
{
    let mut turns = Steps::<L>::new(blank);
    coarsest(alloc, graph, &mut turns)
}

/// The coarsest partition of a graph in which routers of a group have equal colors, and edges into the
/// same other groups that act alike.
pub fn groups_of(alloc: Global, graph: &ActGraph) -> Result<Partition, NoMemory>
    ensures coarsest { IfOk result (λ p. IsCoarsestOn graph.now p) }
    ensures total { IfOk result (λ p. length p ≡ graph.now.count) }
{
    counted::<Brand>(alloc, graph, Blank::new(1))
}
