//! The stable routing problem of a destination, its solutions, and the laws of the problem of groups.
//!
//! An `Srp` keeps the rules of a problem in its type. `candidates` gives the routes that a router may
//! take from given labels, exactly, and `key_cmp` is the order in which it prefers them. `graph` gives
//! the graph whose admissible partitions are those of the problem. The module `laws` says what holds of
//! every problem: that stable labels of a problem and of its quotient correspond, in both directions.
//! Whoever needs one of these laws calls its function.
#![tactic(auto)]

mod candidates;
mod copies;
mod graph;
mod keys;
mod labels;
pub mod laws;
mod route;
mod srp;
mod starts;

pub use candidates::own_edges;
pub use copies::{acts_copy, names_copy};
pub use labels::Labels;
pub use route::{Act, Candidate, Route};
pub use srp::Srp;
