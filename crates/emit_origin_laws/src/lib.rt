//! What the routers of the network of the groups originate.
//!
//! A router of that network has, for each prefix of the class, the initial route of its group: its
//! interfaces in the prefixes of the class, its `network` lines, its costs and its default preference are
//! those of the group's first member. The law is the contract of a function of `laws` that does nothing.
#![tactic(auto)]

pub mod laws;
