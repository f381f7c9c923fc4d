//! What a line says, and where it stands.

use crate::bgp::{Base, NetLine};
use crate::interface::Address;
use crate::network::Named;
use crate::ospf::AreaLine;
use crate::policy::{Change, CommunityLine, MapEntry, NameLine, PrefixEntry, Prepend};
use base_kit::Text;

/// Where a router line stands: at the top, or in a stanza.
#[derive(Clone, Copy, Debug, PartialEq, Eq)]
pub enum Scope {
    Top,
    Interface,
    Bgp,
    Ospf,
}

/// Where a policy line stands: at the top, or in an entry of a route map.
#[derive(Clone, Copy, Debug, PartialEq, Eq)]
pub enum PolicyScope {
    Top,
    Entry,
}

/// What a router line says.
#[derive(Drop)]
pub enum RouterItem {
    Hostname(Text),
    Interface(Text),
    Bgp(u32),
    Ospf(u32),
    End,
    IpAddress(Address),
    Cost(u16),
    Shutdown,
    Base(Base),
    Network(NetLine),
    RemoteAs {
        addr: u32,
        number: u32,
    },
    PeerShut(u32),
    PeerSends(u32),
    PeerList {
        addr: u32,
        list: Named,
        inward: bool,
    },
    PeerMap {
        addr: u32,
        map: Named,
        inward: bool,
    },
    Area(AreaLine),
    PassiveDefault,
    Passive(Text),
    NotPassive(Text),
    Ignored,
}

/// What a line of a prefix list, a community list, a route map or one of its entries says.
#[derive(Drop)]
pub enum PolicyItem {
    PrefixEntry(Text, PrefixEntry),
    CommunityLine(Text, CommunityLine),
    MapHead(Text, MapEntry),
    MatchPrefixes(NameLine),
    MatchComms(NameLine, bool),
    Lp(u32),
    Comms(Change),
    Delete(Named),
    Prepend(Prepend),
    Ignored,
}
