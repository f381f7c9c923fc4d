//! What the tables say of a line's head.

/// What a line is, if its head is in a table.
#[derive(Clone, Copy, Debug, PartialEq, Eq)]
pub enum HeadClass {
    /// A router line of that form.
    Router(RouterForm),
    /// A line of a list, a route map or an entry, of that form.
    Policy(PolicyForm),
    /// A line whose meaning Bonsai does not know, so that the text is refused.
    Refused,
    /// A line that has no bearing on routes.
    Ignored,
}

/// The forms of router lines.
#[derive(Clone, Copy, Debug, PartialEq, Eq)]
pub enum RouterForm {
    /// `hostname NAME`
    Hostname,
    /// `interface NAME`
    Interface,
    /// `router bgp NUMBER`
    Bgp,
    /// `router ospf NUMBER`
    Ospf,
    /// `end`
    End,
    /// `ip address ADDRESS MASK`
    IpAddress,
    /// `ip ospf cost NUMBER`
    Cost,
    /// `shutdown`
    Shutdown,
    /// `bgp default local-preference NUMBER`
    Base,
    /// `network ADDRESS`, with `mask MASK` or without, in a BGP process
    Network,
    /// `neighbor ADDRESS remote-as NUMBER`
    RemoteAs,
    /// `neighbor ADDRESS shutdown`
    PeerShut,
    /// `neighbor ADDRESS send-community`, with `standard`, `both` or neither
    PeerSends,
    /// `neighbor ADDRESS prefix-list NAME in`, or `out`
    PeerList,
    /// `neighbor ADDRESS route-map NAME in`, or `out`
    PeerMap,
    /// `network ADDRESS WILDCARD area NUMBER` in an OSPF process
    Area,
    /// `passive-interface NAME`, or `default`
    Passive,
    /// `no passive-interface NAME`
    NotPassive,
}

/// The forms of lines of lists, route maps and entries.
#[derive(Clone, Copy, Debug, PartialEq, Eq)]
pub enum PolicyForm {
    /// `ip prefix-list NAME seq NUMBER permit PREFIX`, or `deny`, with `ge` and `le` or without
    PrefixEntry,
    /// `ip community-list NUMBER permit COMMUNITY ..`, or `standard NAME`, or `deny`
    CommunityLine,
    /// `route-map NAME permit NUMBER`, or `deny`
    MapHead,
    /// `match ip address prefix-list NAME ..`
    MatchPrefixes,
    /// `match community NAME ..`, with `exact-match` or without
    MatchComms,
    /// `set local-preference NUMBER`
    Lp,
    /// `set community COMMUNITY ..`, with `additive` or without, or `none`
    Comms,
    /// `set comm-list NAME delete`
    Delete,
    /// `set as-path prepend NUMBER ..`
    Prepend,
}
