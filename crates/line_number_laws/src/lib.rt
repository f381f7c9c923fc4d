//! Laws of networks that are the same except for line numbers.
//!
//! Two networks with one `bare` network have the same links, and both have faults or neither has. If
//! their first `router` lines have one protocol, they also have the same routing problems. So what a
//! crate proves of a network holds of every network that its printed text gives. Each law is the
//! contract of a function of `laws` that does nothing: whoever needs one calls it.
#![tactic(auto)]

pub mod laws;
