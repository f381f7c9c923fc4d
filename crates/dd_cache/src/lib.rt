//! A bounded memory of operations: which node an operation on three nodes gave.
//!
//! Contracts see a cache as its capacity and the list of its entries, the most recent first. `keep`
//! puts an entry first, in the place of an earlier one of the same key, and pushes the last one out if
//! there would be more than the capacity. `recall` gives the node kept under a key and brings its entry
//! to the front; `look` gives it and moves nothing. Only `keep` can run out of memory, and then the
//! entries stay as they were. It never runs out of memory for a key that is there already.
#![tactic(auto)]

mod cache;

pub use cache::{Cache, OpKey};
