//! What a BGP session does to a route's communities, as decision diagrams over all sets of communities.
//!
//! `edge_fn` makes the function of a session from the plain maps of its ends: on every set of communities,
//! also of communities that no line names, the function means the import of the two maps. Functions have
//! one form, so `same` compares numbers of nodes, and is true exactly if two sessions import every set
//! alike. `several` is true exactly if two accepted imports differ in preference.
#![tactic(auto)]

mod after;
mod deletion;
mod edge;
mod either;
mod exact;
mod join;
pub mod laws;
mod map_run;
mod matches;
mod session;
mod tables;

pub use edge::{EdgeFn, accepts_some, same, several};
pub use session::edge_fn;
