//! Stable labels, carried between a routing problem and the problem of its groups.
//!
//! `quotient_srp` gives the problem of the groups. `fold` carries stable labels of the routers to the
//! groups, and `lift` those of the groups to the routers; the result is stable there and corresponds to
//! what was given (Beckett, Gupta, Mahajan and Walker, Control Plane Compression, SIGCOMM 2018, section
//! 4). Where several results would correspond, the contracts say which one it is.
#![tactic(auto)]

mod edges;
mod folding;
pub mod laws;
mod lifting;
mod next;
mod problem;
mod sides;
mod tables;
mod tasks;

pub use folding::{fold, fold_into};
pub use lifting::{lift, lift_from};
pub use problem::quotient_srp;
