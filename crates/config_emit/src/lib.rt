//! The network of the groups of a class, as configurations.
//!
//! `emit` writes a router for each group of an admissible partition and a link for each link of the
//! quotient, exactly as the definition `emitted` has it. It refuses where the prefixes of the class meet
//! 100.64.0.0/10, from which the links get their addresses. `specs/Laws.antt` states laws about that
//! definition: the network that is written can be printed and read back, it has no fault of meaning, its
//! problem is the quotient, and it is no larger than the network read.
#![tactic(auto)]

mod act_links;
mod act_maps;
mod as_numbers;
mod bgp;
mod bgp_routers;
mod class_interfaces;
mod emitted;
mod groups;
mod link_interfaces;
mod links_by_group;
mod map_keys;
mod map_numbers;
mod network;
mod number;
mod ospf;
mod pool;
mod room;
mod router_maps;
mod routers;
mod source;
mod written;

pub use emitted::{EmitRefusal, Emitted};
pub use network::emit;
