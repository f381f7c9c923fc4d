//! What is reported of the solutions of a routing problem.
//!
//! `put_count` writes how many solutions a problem has, and `put_solutions` each of them: its labels, or
//! whom each router forwards to. `solved` answers a question: `yes` if it is true in all stable labels,
//! `none` if there are none, else `no` with labels in which it is false. With `yes` and `none` it may name
//! a router whose offers tie; if it names none, the answer holds however ties are broken. `answer_line` is
//! the line of an answer.
//!
//! The definitions speak of the stable labels of the problem alone, and not of how they are found.
#![tactic(auto)]

mod answering;
mod counting;
mod hops;
mod labels;
mod putting;
mod seeing;
mod solutions;
mod told;

pub use answering::{Answer, answer_line, is_yes, solved, verdict_word};
pub use counting::put_count;
pub use putting::put;
pub use solutions::put_solutions;
pub use told::Told;
