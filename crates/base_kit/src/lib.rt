//! The small types that every other crate stands on, with exact contracts.
//!
//! Lists and texts grow at their end, and contracts see them as lists of items and of bytes. A set of
//! numbers is its ascending list. Numbers and addresses are read exactly by their grammar: a word that
//! it does not allow gives `None`, and every other word gives its number. A graph of acting edges keeps
//! its rules in its type. `specs/Partition.antt` defines its admissible partitions and the coarsest one.
#![tactic(auto)]

mod act_graph;
mod ids;
mod list;
mod memory;
mod num_set;
mod numbers;
mod partition_laws;
mod prefix;
mod protocol;
mod steps;
mod text;

pub use act_graph::{ActGraph, Edge};
pub use ids::{Community, RouterId};
pub use list::List;
pub use memory::NoMemory;
pub use num_set::NumSet;
pub use numbers::{read_address, read_number};
pub use partition_laws::{coarsest_is_one, join_is_admissible};
pub use prefix::Prefix;
pub use protocol::Protocol;
pub use steps::Steps;
pub use text::Text;
