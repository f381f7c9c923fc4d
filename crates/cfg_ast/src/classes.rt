//! Classes of destination prefixes.

use base_kit::{List, Prefix};

/// A destination class: its prefixes, ascending, and the routers that originate each of them, in order.
#[derive(Drop)]
pub struct DestClass {
    pub prefixes: List<Prefix>,
    pub origins: List<Origin>,
}

/// A router, by its place, that originates the prefixes of a class, and its cost to them in OSPF.
#[derive(Clone, Copy, Debug, PartialEq, Eq, Hash)]
pub struct Origin {
    pub router: u32,
    pub cost: Option<u16>,
}
