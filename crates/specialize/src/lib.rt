//! What the route maps of a router mean for one prefix.
//!
//! `policy` gives the plain map of one direction of a session. It has the entries whose prefix match is
//! absent or holds, without that match and with the community lists written out. It has no entry if the
//! prefix list denies the prefix, and one entry that permits all if there is no map. Inbound, the
//! router's default preference is written into each permit without one, if it is not 100. For every set
//! of communities the verdict is that of the router's prefix list followed by its map, and the maps of a
//! checked network's routers can be printed. `policy_at` gives the same from the places of the router's
//! lists and maps, which `places_of` makes once for all of its sessions, and `route_map_at` a map
//! itself. The module `laws` says what the maps of both ends of a session import together, and which
//! communities they name.
#![tactic(auto)]

mod answers;
pub mod laws;
mod maps;
mod places;

pub use maps::{policy, policy_at};
pub use places::{Places, places_of, route_map_at};
