//! Questions about labels.

use base_kit::NumSet;

/// What is asked of some routers, each by its place. A chain of forwarding is a row of routers each of
/// which forwards to the next; each router is a chain by itself.
#[derive(Drop)]
pub enum Question {
    /// Each of the routers has a label.
    Route { routers: NumSet },
    /// None of the routers has a label.
    Isolated { routers: NumSet },
    /// No chain that begins at one of the routers has more hops.
    Hops { most: u32, routers: NumSet },
    /// Each chain that begins at one of the routers and ends at a router with an initial route has a
    /// router of the way, its ends included.
    Through { way: NumSet, routers: NumSet },
    /// No chain that begins at one of the routers has a router of the way, its ends included.
    Avoids { way: NumSet, routers: NumSet },
    /// Each of the routers that has a label holds the community in it.
    Carries { community: u32, routers: NumSet },
    /// None of the routers holds the community in its label.
    Lacks { community: u32, routers: NumSet },
}
