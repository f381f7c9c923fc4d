//! All stable labels of a routing problem.
//!
//! Routers are settled one after another, each with the best of the routes that settled routers offer it.
//! A router that is not lone, or that no edge can give anything better, takes its best offer. Before any
//! other router the search looks ahead: it follows what each router may still hold from edge to edge, and
//! settles all routers to which nothing better comes; where one of them waits, the case has no solution.
//! Where there is none, there are two cases: the router takes its offer, or it waits for one of a higher
//! preference. Both are followed, the second after what was done for the first is undone, so that memory
//! holds one set of labels and the steps that led to it. `search` shows each solution to a visitor as it
//! finds it.
#![tactic(auto)]

mod ahead;
mod bests;
mod board;
mod looking;
mod lookups;
mod offers;
mod queue;
mod searching;
mod settling;
mod start;
mod sweeping;
mod undoing;
mod visitor;
mod weighing;

pub use bests::Difference;
pub use board::Tie;
pub use searching::{Ending, search};
pub use visitor::Visitor;
