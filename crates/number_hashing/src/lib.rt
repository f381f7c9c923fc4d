//! How a table hashes numbers that a text may choose, as addresses.
//!
//! The hash of the kit has a fixed seed, so addresses can be chosen whose hashes meet. A table of many
//! keys takes a hash that begins with the SipHash of all of them: keys chosen for one such beginning would
//! have to have it, one of 2^64.
#![tactic(auto)]

mod hashing;

pub use hashing::{FEW, NumberDigest, NumberHashing};
