//! Prefix lists, community lists and route maps.

use crate::network::Named;
use base_kit::{List, NumSet, Prefix, Text};

/// A prefix list, its entries by sequence number.
#[derive(Drop)]
pub struct PrefixList {
    pub name: Text,
    pub entries: List<PrefixEntry>,
}

/// An entry of a prefix list.
#[derive(Clone, Copy, Debug, PartialEq, Eq)]
pub struct PrefixEntry {
    pub seq: u32,
    pub permit: bool,
    pub prefix: Prefix,
    pub ge: Option<u8>,
    pub le: Option<u8>,
    pub line: u32,
}

/// A community list, its lines in the order of the text.
#[derive(Drop)]
pub struct CommunityList {
    pub name: Text,
    pub lines: List<CommunityLine>,
}

/// A line of a community list.
#[derive(Drop)]
pub struct CommunityLine {
    pub permit: bool,
    pub comms: NumSet,
    pub line: u32,
}

/// A route map, its entries by sequence number.
#[derive(Drop)]
pub struct RouteMap {
    pub name: Text,
    pub entries: List<MapEntry>,
}

/// An entry of a route map. `change_line` is the number of its `set community` line, or 0.
#[derive(Drop)]
pub struct MapEntry {
    pub seq: u32,
    pub permit: bool,
    pub line: u32,
    pub prefixes: Option<NameLine>,
    pub comms: Option<NameLine>,
    pub exact: bool,
    pub lp: Option<u32>,
    pub change: Option<Change>,
    pub change_line: u32,
    pub delete: Option<Named>,
    pub prepend: Option<Prepend>,
}

/// The names that a match line gives.
#[derive(Drop)]
pub struct NameLine {
    pub names: List<Text>,
    pub line: u32,
}

/// The AS numbers of a `set as-path prepend` line.
#[derive(Drop)]
pub struct Prepend {
    pub numbers: List<u32>,
    pub line: u32,
}

/// What a `set community` line does.
#[derive(Drop)]
pub enum Change {
    /// It removes all communities.
    Clear,
    /// It puts these in the place of all communities.
    Replace(NumSet),
    /// It adds these.
    Append(NumSet),
}

/// A community that a line names, with the number of that line.
#[derive(Clone, Copy, Debug, PartialEq, Eq)]
pub struct Mention {
    pub community: u32,
    pub line: u32,
}
