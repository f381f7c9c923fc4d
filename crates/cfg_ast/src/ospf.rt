//! OSPF processes and their `network` lines.

use base_kit::{List, Text};

/// An OSPF process: its number and its lines.
#[derive(Drop)]
pub struct OspfProcess {
    pub number: u32,
    pub line: u32,
    pub passive_default: bool,
    pub passive: List<Text>,
    pub not_passive: List<Text>,
    pub areas: List<AreaLine>,
}

/// A `network` line of an OSPF process: the addresses that agree with `addr` where `wild` has 0.
#[derive(Clone, Copy, Debug, PartialEq, Eq)]
pub struct AreaLine {
    pub addr: u32,
    pub wild: u32,
    pub area: u32,
    pub line: u32,
}
