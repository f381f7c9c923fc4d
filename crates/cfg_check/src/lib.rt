//! Whether a network may be used: the third pass of the reading.
//!
//! `check_network` looks for every fault that the meaning of lines can have, as a name, a number or an
//! address that stands twice, or too many pairs of adjacent interfaces. It refuses the network at the
//! least line with a fault. If that line has several faults, the first kind in the order of `Kind`
//! decides. If there is no fault it gives a `Checked`, whose type keeps that some text gives its network
//! and that the network has no fault.
#![tactic(auto)]

mod addresses;
mod area;
mod area_index;
mod area_table;
mod check;
mod checked;
mod communities;
mod deletions;
mod gather;
mod hashing;
pub mod laws;
mod least;
mod limits;
mod name_sets;
mod names;
mod overlaps;
mod pairs;
mod prepends;
mod processes;
mod undefined;

pub use area_index::AreaIndex;
pub use check::check_network;
pub use checked::Checked;
