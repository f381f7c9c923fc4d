//! The problem of the groups of a routing problem, as a definition.
//!
//! `specs/Groups` computes it from the problem, an admissible partition and the links between its
//! groups. The module `laws` says that it is the quotient of the problem by the partition, so that all
//! laws of quotients hold of it. `links_of_groups` gives those links.
#![tactic(auto)]

pub mod laws;
mod links;

pub use links::links_of_groups;
