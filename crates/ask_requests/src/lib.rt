//! What is refused of a request over a network, and the places of the classes that it asks.
//!
//! `span_of` looks up the classes first, then the names of routers, and then the pairs of routers that are down. The
//! first of these that the network does not have is the `Fault`.
#![tactic(auto)]

mod fault;
mod spans;
mod unjoined;
mod unknown;

pub use fault::Fault;
pub use spans::span_of;
