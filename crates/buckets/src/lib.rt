//! Items by pairs of numbers, those of one pair in the order in which they came.
//!
//! Crates that look for what belongs together, as the interfaces of a subnet, put it into an `Index`.
//! `proofs/` has the lemma of one turn: an index of some items, with one item more.
#![tactic(auto)]

mod index;

pub use index::{Index, items_at, push_at};
