//! How a call ends that answers more than one question, and the line on `err` that says so.
//!
//! A program that answers a question for many classes, or about many solutions, has one end more than a
//! command on one class: the work was done, and not every answer in it is good. `Finding` is what a call
//! has come to, before it is reported. `tell` writes it: an output whole, or a line on `err`.
#![tactic(auto)]

mod ending;
mod finding;
mod telling;

pub use ending::Ending;
pub use finding::Finding;
pub use telling::{tell, tell_no_memory, tell_write_fault};
