//! The form of the network of the groups: what is written can be printed and read back.
//!
//! The network of the groups of every plan is as the grammar has networks, its notes are notes, and its
//! lines are short; and it has no more links than the network read. Each law is the contract of a
//! function of `laws` that does nothing: whoever needs one calls it. The lemmas behind them, on the
//! names, addresses, processes and maps of the routers of groups, stand in public files of `proofs/`
//! for the crates above that speak of the same network.
#![tactic(auto)]

pub mod laws;
