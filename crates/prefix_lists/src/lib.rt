//! The answers of prefix lists.
//!
//! `permits` is the answer of a list to a prefix: its entries are tried by sequence number, the first
//! that holds decides, and the end denies. An entry holds for a prefix that agrees with the entry's in
//! the bits that count there, and whose length is in the entry's range. No call takes memory.
#![tactic(auto)]

mod answers;

pub use answers::permits;
