//! The links of the network of groups.
//!
//! `quotient` takes a graph of acting edges and a partition of its routers, and gives the links between
//! the groups, in order and exactly. Edges between two groups have some number of different acts in each
//! direction; the larger of the two numbers is the number of links. Each link names the edges that it
//! stands for. `quotient_over` does the same for a slice of edges. The module `laws` says that the links
//! carry exactly the acts between groups, and that they are no more than the links of the network were.
#![tactic(auto)]

mod by_group;
pub mod laws;
mod links;
mod qlink;
mod run_ends;
mod runs;
mod steps;

pub use links::{quotient, quotient_over};
pub use qlink::{QLink, Quotient, act_at};
