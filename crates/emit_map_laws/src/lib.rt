//! What the sessions of the network of the groups import.
//!
//! The route maps that config_emit's definition writes mean what the acts of the links mean: a router
//! finds each map by its name and the lists of the map by their names, and the map has the same verdicts
//! as the map of the act. So the session at a link imports what the link's act imports, and nothing
//! where the link carries no act into that end. The law is the contract of a function of `laws` that
//! does nothing.
#![tactic(auto)]

pub mod laws;
