//! The links of a network.
//!
//! `links` gives the BGP sessions and the OSPF adjacencies of a checked network, in the order of their
//! ends, exactly as the definition, which goes over all pairs of neighbours and of interfaces. The pairs
//! are found by indexes over subnets and addresses, so that the time grows with the number of
//! interfaces, neighbour lines and links, and not with that of all pairs. `unmatched` gives the
//! neighbours that are part of no session.
//!
//! A session is found by its two addresses. In a checked network at most one up interface has the address
//! that a neighbour line names, and at most one of the line's own router is in the same subnet. The line
//! at the other end must stand at the router of the first and name the address of the second.
#![tactic(auto)]

mod adjacencies;
pub mod laws;
mod network_links;
mod peers;
mod places;
mod sessions;
mod unmatched_neighbors;
mod ups;

pub use cfg_ast::{Link, Unmatched};
pub use network_links::links;
pub use unmatched_neighbors::unmatched;
