//! What `shutdown` at a neighbour does to the problems of a network.
//!
//! The problem without a session is, except for the numbers of links, the problem of the network in which one of its
//! two neighbours has `shutdown`. Each law is the contract of a function that does nothing: whoever needs one calls it.
#![tactic(auto)]

ghost use Rattle.shutdown_laws.specs.Shutdown.{NeighborEndsOneLink, ShutdownIsWithout, ShutdownIsWithoutLink, ShutdownKeepsClasses, ShutdownKeepsFaultless, ShutdownLeavesLinks};

use given_laws::{given_links_are_in_order, given_routers_are_well_formed};

/// A BGP problem without the links of one neighbour is, except for the numbers of links, the problem of the network
/// in which that neighbour has `shutdown`.
pub fn shutdown_is_without()
    ensures { ShutdownIsWithout }
{}

/// In BGP a neighbour is an end of at most one link.
pub fn neighbor_ends_one_link()
    ensures { NeighborEndsOneLink }
{
    given_links_are_in_order();
    given_routers_are_well_formed();
}

/// A BGP problem without one link is, except for the numbers of links, the problem of the network in which the
/// neighbour at an end of the link has `shutdown`.
pub fn shutdown_is_without_link()
    ensures { ShutdownIsWithoutLink }
{
    neighbor_ends_one_link();
}

/// In BGP the links of that network are those that do not end at the neighbour, in the same order.
pub fn shutdown_leaves_links()
    ensures { ShutdownLeavesLinks }
{}

/// Its classes are the same, with the same numbers.
pub fn shutdown_keeps_classes()
    ensures { ShutdownKeepsClasses }
{}

/// No fault stands in it if none stood before.
pub fn shutdown_keeps_faultless()
    ensures { ShutdownKeepsFaultless }
{}
