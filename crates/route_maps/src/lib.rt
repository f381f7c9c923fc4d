//! The verdicts of route maps without prefix matches, and the import over a BGP session.
//!
//! A `Plain` is what a route map means for one prefix. `apply` gives its verdict on a set of
//! communities: its entries are tried by sequence number, the first that holds decides, and the end
//! denies. `import` gives what a router takes over a session from its neighbour's route, through the
//! maps of both ends: nothing, or a preference, a set of communities and a count of AS numbers that
//! the exporter puts before the path. `same_map` tells whether two maps are the same except for the
//! names of their lists and line numbers; such maps have equal verdicts.
#![tactic(auto)]

mod copies;
pub mod laws;
mod plain;
mod same;
mod session;
mod verdict;

pub use copies::{change_copy, list_copy, map_copy};
pub use plain::{Imported, Plain, PlainEntry, Verdict};
pub use same::same_map;
pub use session::import;
pub use verdict::apply;
