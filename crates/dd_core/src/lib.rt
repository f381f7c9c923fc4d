//! Reduced ordered decision diagrams over sets of communities, in one shared store.
//!
//! A node of a store has a value on every set of communities: the variables are the communities of
//! the store's universe, in their order, and last `others`, which is true where the set has a
//! community outside the universe. Equal numbers are equal functions, and different numbers differ
//! on some set that a proof can name: `is_same` carries both. Old numbers keep their meaning while
//! the store grows, also where memory runs out. `not`, `and` and `or` are cases of `ite`. `ite` first
//! looks for the operation among those that the store remembers, and at the end puts its answer there. A
//! remembered operation gets its earlier answer, and adds no node.
#![tactic(auto)]

mod build;
mod ite;
pub mod laws;
mod node_id;
mod reach;
mod restrict;
mod store;
mod table;
mod variables;

pub use node_id::NodeId;
pub use store::{Store, is_same};
