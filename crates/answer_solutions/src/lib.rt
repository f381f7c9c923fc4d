//! The commands on a solution: `check` judges one, `fold` carries it to the groups, and `lift` carries
//! one of the groups to the routers.
//!
//! Each command replies with an outcome that its definition allows, or that the second file could not be
//! read, or that memory ran out. The module `laws` says that there is only one such outcome if the file
//! is known. It also says that what `fold` and `lift` write is read as labels that are stable in the
//! other problem and correspond.
#![tactic(auto)]

pub mod breaks;
pub mod carry;
pub mod check;
pub mod class_solution;
pub mod laws;
mod printing;
mod sides;
