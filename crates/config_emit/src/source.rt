//! What the network of the groups is written from.

ghost use Rattle.std.specs.Prelude.{◌≡◌, is_some, slice_get, option_copied};
ghost use Rattle.srp_core.specs.Problem.{initial};

use abstract_net::QLink;
use cfg_ast::{DestClass, Network, Router};
use refine_partition::Partition;
use srp_core::Srp;

/// What the network of the groups is written from. `count` is the number of the groups.
#[derive(Drop)]
pub(crate) struct Source<'a> {
    pub(crate) network: &'a Network,
    pub(crate) class: &'a DestClass,
    pub(crate) srp: &'a Srp,
    pub(crate) groups: &'a Partition,
    pub(crate) count: u32,
    pub(crate) links: &'a [QLink],
}

/// The router at a place.
pub(crate) fn router_at(routers: &[Router], place: u32) -> Option<&Router>
    ensures { option_copied result ≡ slice_get routers.now place }
{
    routers.get(place as usize)
}

/// Whether a router originates the class.
pub(crate) fn originates(source: &Source, router: u32) -> bool
    ensures { result ≡ is_some (initial source.now.srp.now router) }
{
    match source.srp.init().get(router as usize) {
        Some(Some(_)) => true,
        _ => false,
    }
}
