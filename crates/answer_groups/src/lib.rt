//! The commands that report classes and groups: `classes`, `groups`, `compress` and `canon`.
//!
//! Each command replies with an outcome that its definition allows, or that memory ran out. The module
//! `laws` says that there is only one such outcome.
#![tactic(auto)]

pub mod canon;
pub mod classes;
pub mod compress;
mod emission;
pub mod groups;
pub mod laws;
