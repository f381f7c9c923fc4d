//! Route maps for one prefix, and what they say of a route.

use base_kit::{List, NumSet};
use cfg_ast::{Change, CommunityList};

/// A route map for one prefix: its entries by sequence number, without prefix matches.
#[derive(Drop)]
pub struct Plain {
    pub entries: List<PlainEntry>,
}

/// An entry: the community lists that it matches, if it matches any, exactly or not, and what a
/// permitted route gets: a preference, a change of its communities after a deletion, and how many AS
/// numbers are put before its path.
#[derive(Drop)]
pub struct PlainEntry {
    pub seq: u32,
    pub permit: bool,
    pub lists: Option<List<CommunityList>>,
    pub lp: Option<u32>,
    pub change: Option<Change>,
    pub delete: Option<CommunityList>,
    pub adds: u8,
    pub exact: bool,
}

/// What a map says of a route.
#[derive(Drop)]
pub enum Verdict {
    /// The route is dropped.
    Deny,
    /// The route passes, with these changes.
    Permit {
        lp: Option<u32>,
        comms: NumSet,
        adds: u8,
    },
}

/// A route that passed both ends of a session: its preference, its communities, and how many AS
/// numbers the exporter put before its path.
#[derive(Drop)]
pub struct Imported {
    pub lp: u32,
    pub comms: NumSet,
    pub adds: u8,
}
