//! What `bonsai-ask` answers over a checked network.
//!
//! `answer` gives what one request writes, or why it is refused. `answers` gives the same of a file of questions: of each
//! line that asks something, in order; the first line at fault refuses the file. What the classes of the network share
//! is made once for a call.
#![tactic(auto)]

mod atlas;
mod class_parts;
mod plan;
mod problems;
mod questions;
mod reading;
mod reports;
mod requests;

pub use questions::answers;
pub use requests::answer;
