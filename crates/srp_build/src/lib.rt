//! The stable routing problem of a destination class.
//!
//! `build` gives the problem of a checked network for every prefix of one of its classes: its routers,
//! what they originate, and an edge for each direction of a link that carries routes. In OSPF edges of
//! the same cost share an act. In BGP edges share an act if they import every set of communities alike,
//! and a router is lone if it accepts routes with different preferences. Acts stand in the order of the
//! first edges that have them. The problem serves every prefix of its class, since the prefixes of a
//! class are originated alike and every prefix list answers them alike. To build the problems of several
//! classes, call `directions_of` once for what does not depend on a class, and then `build_over` for
//! each class. The classes of an OSPF network differ in what routers originate, and in nothing else that
//! a problem has: `restart` makes the problem of one class that of another.
#![tactic(auto)]

mod acts;
mod bgp_edges;
mod bgp_problem;
mod costs;
mod directions;
mod fixed;
mod hashes;
mod hop_numbers;
mod hops;
mod imports;
pub mod laws;
mod lines;
mod lone;
mod met_imports;
mod placed_edges;
mod plains;
mod policies;
mod policy_maps;
mod problem;
mod routers;
mod seen;
mod session_hops;

pub use directions::{Directions, directions_of};
pub use problem::{build, build_over, restart};
