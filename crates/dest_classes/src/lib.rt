//! The destination classes of a network.
//!
//! `classes` gives the classes of the prefixes that the routers originate, numbered by their least
//! prefixes, exactly as they are defined: two prefixes are in one class where the same routers originate
//! them with the same initial routes and all prefix lists of all routers answer both alike. The code
//! goes once over the interfaces, orders the prefixes, asks the lists that say different things, a word of
//! answers at a time, and puts each prefix into the group of its signature; the definition goes over all
//! pairs of prefixes.
#![tactic(auto)]

mod cells;
mod groups;
mod laws;
mod lists;
mod network_classes;
mod routes;
mod stretches;

pub use cfg_ast::{DestClass, Origin};
pub use laws::{class_ascends, class_of_each_member, same_class_is_decided};
pub use network_classes::classes;
