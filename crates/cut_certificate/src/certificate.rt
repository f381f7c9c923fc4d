//! Certificates: splits, and the groups to which they lead.

use base_kit::List;

/// A split of one block by another one. Blocks are numbered from 1. The edge, by its place in the edges
/// of the graph, names an act: the members of the block that have an edge of this act into the other
/// block become the next block.
#[derive(Clone, Copy, Debug, PartialEq, Eq)]
pub struct Split {
    pub block: u32,
    pub by: u32,
    pub edge: u32,
}

/// Splits in their order, and the groups to which they lead, each ascending, in the order of their least
/// members.
#[derive(Drop)]
pub struct Certificate {
    pub splits: List<Split>,
    pub groups: List<List<u32>>,
}
