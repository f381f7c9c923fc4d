//! The links that a network can lose without a change of routes' keys.
//!
//! A link is spare under stable labels if each router that forwards over it forwards over another link too.
//! `spare_links` marks such links, by one pass over the edges of a problem without lone routers, and says whether routes
//! tie. `laws` has what is known of a problem without one of them: what is true stays true, and no tie comes.
#![tactic(auto)]

pub mod laws;
mod spare;
mod standing;
mod ways;

pub use spare::{SpareLinks, spare_links};
