//! Links between routers, and neighbours in no session.

/// A link: a BGP session or an OSPF adjacency. `low` is the router of the lesser line, and the items
/// are places in the routers' `neighbors` or `interfaces`.
#[derive(Clone, Copy, Debug, PartialEq, Eq)]
pub struct Link {
    pub low: u32,
    pub high: u32,
    pub low_item: u32,
    pub high_item: u32,
}

/// A neighbour line that is part of no session: its router's place, and its address.
#[derive(Clone, Copy, Debug, PartialEq, Eq)]
pub struct Unmatched {
    pub router: u32,
    pub addr: u32,
}
