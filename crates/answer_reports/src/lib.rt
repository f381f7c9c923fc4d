//! The commands that report on groups: `report` and `json` on those of one class, `summary` on those
//! of each class of a network, and `trial` on those of each class of a fat tree.
//!
//! Each command replies with an outcome that its definition allows, or that memory ran out. The module
//! `laws` says that there is only one such outcome.
#![tactic(auto)]

pub mod laws;
pub mod report;
pub mod summary;
pub mod trial;
