//! No fault of meaning stands in the network of the groups of a plan, kind by kind.
//!
//! Names, AS numbers and addresses tell its routers apart, since those of their first members do; its
//! policy lines name what its routers define; and it keeps the limits on routers, neighbours, links and
//! communities, since the network read keeps them. The law is the contract of a function of `laws` that
//! does nothing: whoever needs it calls it.
#![tactic(auto)]

pub mod laws;
