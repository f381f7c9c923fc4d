//! What `bonsai-ask` does: from the words of a call to the bytes on its outputs and its exit status.
//!
//! `run` is the one call that the program makes. Its contract says which outputs the words allow over the contents of
//! the files, and `laws` says that these are one outcome, except for what is free.
#![tactic(auto)]

mod findings;
pub mod laws;
mod top;

pub use top::run;
