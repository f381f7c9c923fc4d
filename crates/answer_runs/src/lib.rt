//! The commands that activate routers: `run` and `reach`.
//!
//! Each command replies with an outcome that its definition allows, or that the second file could not be
//! read, or that memory ran out. The module `laws` says that there is only one such outcome if the file
//! is known.
#![tactic(auto)]

pub mod laws;
pub mod reach;
pub mod run;
