//! BGP processes and their neighbours.

use crate::network::Named;
use base_kit::{List, Prefix};

/// A BGP process: its AS number and its lines.
#[derive(Drop)]
pub struct BgpProcess {
    pub number: u32,
    pub line: u32,
    pub base: Option<Base>,
    pub networks: List<NetLine>,
    pub neighbors: List<Neighbor>,
}

/// A `bgp default local-preference` line.
#[derive(Clone, Copy, Debug, PartialEq, Eq)]
pub struct Base {
    pub value: u32,
    pub line: u32,
}

/// A `network` line of a BGP process.
#[derive(Clone, Copy, Debug, PartialEq, Eq)]
pub struct NetLine {
    pub prefix: Prefix,
    pub line: u32,
}

/// A neighbour: its address, its AS number, the number of its `remote-as` line, and what its other
/// lines say.
#[derive(Drop)]
pub struct Neighbor {
    pub addr: u32,
    pub remote: u32,
    pub line: u32,
    pub shut: bool,
    pub sends: bool,
    pub list_in: Option<Named>,
    pub list_out: Option<Named>,
    pub map_in: Option<Named>,
    pub map_out: Option<Named>,
}
