//! The commands on certificates: `certify` and `verify`.
//!
//! Each command replies with an outcome that its definition allows, or that the second file could not be
//! read, or that memory ran out. Which certificate `certify` writes is free. The module `laws` says that
//! `verify` has only one such outcome if the file is known, that the outcome is yes for what `certify`
//! writes, and that a yes means that the file names the groups of the class.
#![tactic(auto)]

pub mod certify;
pub mod laws;
pub mod verify;
