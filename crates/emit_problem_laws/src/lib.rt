//! The problem of the network of the groups.
//!
//! For every plan and every prefix of its class the network that is written for the groups has the problem
//! of the groups: a group originates the prefix as its members do, and its links carry the acts of the
//! plan, in OSPF at the same costs. Each law is the contract of a function of `laws` that does nothing:
//! whoever needs one calls it.
#![tactic(auto)]

pub mod laws;
