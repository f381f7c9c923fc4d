//! The coarsest admissible partition of the routers of a graph of acting edges.
//!
//! `coarsest` gives the partition that every admissible one refines, in groups that are numbered by
//! their least members, and counts its turns: at most two for each router. A turn divides every other
//! block by the acts of its members' edges into one block. `coarsest_over` does the same for a graph
//! over borrowed edges, and `coarsest_by` with the edges by their exporters, as `exports_of` gives them
//! once for all colors.
//!
//! `start` and `split_by` of a `Splitting` are the same steps for callers that split by hand. Their
//! contracts pin the numbers and the order of the blocks, and each call counts one. `coarsest` counts
//! turns in the same way: as many calls of `split_by` as it counts lead from `start` to its groups,
//! and no block is taken twice.
//!
//! A split by hand costs as much as there are routers and edges, since it keeps the blocks ready to be
//! read. A turn of `coarsest` divides the blocks in the same way, but costs only a step for each router
//! listed in the block and for each edge from it, and what it takes to order what does not stand so. The
//! numbers of the divided blocks are sorted, and the edges, by their acts, only if they are few or one has
//! an act from 16 on; else they are put into a list for each act. So `coarsest` is fast if the blocks whose
//! turn comes are small; larger pieces wait longest for their turn.
#![tactic(auto)]

mod arrivals;
mod blocks;
mod class_names;
mod classes;
mod division;
mod graph_view;
mod imports;
mod moves;
mod numbering;
mod ordering;
mod partition;
mod pending;
mod plan;
mod renumbering;
mod splitting;
mod staying;
mod touched;
mod turn;

pub use graph_view::GraphView;
pub use imports::{Exports, exports_of};
pub use partition::{Partition, coarsest, coarsest_by, coarsest_over};
pub use splitting::{Splitting, start};
