//! Networks, routers, and the notes of a printed network.

use crate::bgp::BgpProcess;
use crate::interface::Interface;
use crate::ospf::OspfProcess;
use crate::policy::{CommunityList, PrefixList, RouteMap};
use base_kit::{List, Text};

/// The running configurations of all routers of one network, in the order of the text.
#[derive(Drop)]
pub struct Network {
    pub routers: List<Router>,
}

/// The running configuration of one router. `line` is that of its `hostname`.
#[derive(Drop)]
pub struct Router {
    pub name: Text,
    pub line: u32,
    pub interfaces: List<Interface>,
    pub bgp: Option<BgpProcess>,
    pub ospf: Option<OspfProcess>,
    pub prefix_lists: List<PrefixList>,
    pub community_lists: List<CommunityList>,
    pub route_maps: List<RouteMap>,
}

/// For each router of a printed network, the names of the routers that it stands for.
#[derive(Drop)]
pub struct Notes {
    pub members: List<List<Text>>,
}

/// A name that a line gives, with the number of that line.
#[derive(Drop)]
pub struct Named {
    pub name: Text,
    pub line: u32,
}
