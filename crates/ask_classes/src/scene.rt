//! The network that is asked about, what is down in it, and the problems of a class.

use cfg_ast::{Link, Network};
use srp_core::Srp;
use srp_without::Failures;

/// A network with its links, and marks for the routers and for the links that are down.
#[derive(Drop)]
pub struct Scene<'a> {
    pub network: &'a Network,
    pub links: &'a [Link],
    pub routers_down: &'a [bool],
    pub links_down: &'a [bool],
}

/// The problem of a class with its number: whole, and what is left of it where routers and links are down. What
/// is known of its failures goes with it.
#[derive(Drop)]
pub struct Problems<'a> {
    pub whole: &'a Srp,
    pub left: &'a Srp,
    pub failures: &'a Failures,
    pub number: usize,
}
