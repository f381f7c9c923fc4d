//! Laws of admissible partitions. The functions do nothing: their contracts are the laws.

ghost use Rattle.base_kit.specs.Join.{IsJoinByChains};
ghost use Rattle.base_kit.specs.Partition.{IsAdmissibleOn, IsCoarsestOn, Refines};

use crate::ActGraph;

/// The join of two admissible partitions is admissible.
pub fn join_is_admissible(graph: &ActGraph, first: &[u32], second: &[u32], join: &[u32])
    requires first { IsAdmissibleOn graph.now first.now }
    requires second { IsAdmissibleOn graph.now second.now }
    requires join { IsJoinByChains graph.now.count first.now second.now join.now }
    ensures { IsAdmissibleOn graph.now join.now }
{}

/// There is one coarsest admissible partition: two of them refine each other.
pub fn coarsest_is_one(graph: &ActGraph, first: &[u32], second: &[u32])
    requires first { IsCoarsestOn graph.now first.now }
    requires second { IsCoarsestOn graph.now second.now }
    ensures there { Refines graph.now.count first.now second.now }
    ensures back { Refines graph.now.count second.now first.now }
{}
