//! The records of a network, taken apart into their fields.
//!
//! Each function takes a record apart and puts it together again, with the type of each field written
//! out. If a field is added, removed or has another type, this crate does not compile.
//!
//! `Address` keeps a rule over its fields, so they are private. Its function reads them by `addr`, `len` and
//! `line`, and puts the address together again by `new`.

ghost use Rattle.std.specs.Prelude.{◌≡◌};

use base_kit::{List, NumSet, Prefix, Text};
use cfg_ast::{
    Address, AreaLine, Base, BgpProcess, Change, CommunityLine, CommunityList, Interface, Kind,
    MapEntry, NameLine, Named, Neighbor, NetLine, Network, OspfProcess, PrefixEntry, PrefixList,
    Prepend, ReadRefusal, RouteMap, Router,
};

/// A network.
pub fn network_again(network: Network) -> Network
    ensures { result ≡ network }
{
    let Network { routers } = network;
    let routers: List<Router> = routers;
    Network { routers }
}

/// A router.
pub fn router_again(router: Router) -> Router
    ensures { result ≡ router }
{
    let Router {
        name,
        line,
        interfaces,
        bgp,
        ospf,
        prefix_lists,
        community_lists,
        route_maps,
    } = router;
    let name: Text = name;
    let line: u32 = line;
    let interfaces: List<Interface> = interfaces;
    let bgp: Option<BgpProcess> = bgp;
    let ospf: Option<OspfProcess> = ospf;
    let prefix_lists: List<PrefixList> = prefix_lists;
    let community_lists: List<CommunityList> = community_lists;
    let route_maps: List<RouteMap> = route_maps;
    Router {
        name,
        line,
        interfaces,
        bgp,
        ospf,
        prefix_lists,
        community_lists,
        route_maps,
    }
}

/// An interface.
pub fn interface_again(interface: Interface) -> Interface
    ensures { result ≡ interface }
{
    let Interface {
        name,
        line,
        address,
        cost,
        shut,
    } = interface;
    let name: Text = name;
    let line: u32 = line;
    let address: Option<Address> = address;
    let cost: Option<u16> = cost;
    let shut: bool = shut;
    Interface {
        name,
        line,
        address,
        cost,
        shut,
    }
}

/// An address, read and made by its functions.
pub fn address_again(address: &Address) -> Address
    ensures { result ≡ address.now }
{
    let addr: u32 = address.addr();
    let len: u8 = address.len();
    let line: u32 = address.line();
    Address::new(addr, len, line)
}

/// A BGP process.
pub fn bgp_again(bgp: BgpProcess) -> BgpProcess
    ensures { result ≡ bgp }
{
    let BgpProcess {
        number,
        line,
        base,
        networks,
        neighbors,
    } = bgp;
    let number: u32 = number;
    let line: u32 = line;
    let base: Option<Base> = base;
    let networks: List<NetLine> = networks;
    let neighbors: List<Neighbor> = neighbors;
    BgpProcess {
        number,
        line,
        base,
        networks,
        neighbors,
    }
}

/// A default preference.
pub fn base_again(base: Base) -> Base
    ensures { result ≡ base }
{
    let Base { value, line } = base;
    let value: u32 = value;
    let line: u32 = line;
    Base { value, line }
}

/// A `network` line of a BGP process.
pub fn net_line_again(net_line: NetLine) -> NetLine
    ensures { result ≡ net_line }
{
    let NetLine { prefix, line } = net_line;
    let prefix: Prefix = prefix;
    let line: u32 = line;
    NetLine { prefix, line }
}

/// A neighbour.
pub fn neighbor_again(neighbor: Neighbor) -> Neighbor
    ensures { result ≡ neighbor }
{
    let Neighbor {
        addr,
        remote,
        line,
        shut,
        sends,
        list_in,
        list_out,
        map_in,
        map_out,
    } = neighbor;
    let addr: u32 = addr;
    let remote: u32 = remote;
    let line: u32 = line;
    let shut: bool = shut;
    let sends: bool = sends;
    let list_in: Option<Named> = list_in;
    let list_out: Option<Named> = list_out;
    let map_in: Option<Named> = map_in;
    let map_out: Option<Named> = map_out;
    Neighbor {
        addr,
        remote,
        line,
        shut,
        sends,
        list_in,
        list_out,
        map_in,
        map_out,
    }
}

/// A name that a line gives.
pub fn named_again(named: Named) -> Named
    ensures { result ≡ named }
{
    let Named { name, line } = named;
    let name: Text = name;
    let line: u32 = line;
    Named { name, line }
}

/// An OSPF process.
pub fn ospf_again(ospf: OspfProcess) -> OspfProcess
    ensures { result ≡ ospf }
{
    let OspfProcess {
        number,
        line,
        passive_default,
        passive,
        not_passive,
        areas,
    } = ospf;
    let number: u32 = number;
    let line: u32 = line;
    let passive_default: bool = passive_default;
    let passive: List<Text> = passive;
    let not_passive: List<Text> = not_passive;
    let areas: List<AreaLine> = areas;
    OspfProcess {
        number,
        line,
        passive_default,
        passive,
        not_passive,
        areas,
    }
}

/// A `network` line of an OSPF process.
pub fn area_line_again(area_line: AreaLine) -> AreaLine
    ensures { result ≡ area_line }
{
    let AreaLine {
        addr,
        wild,
        area,
        line,
    } = area_line;
    let addr: u32 = addr;
    let wild: u32 = wild;
    let area: u32 = area;
    let line: u32 = line;
    AreaLine {
        addr,
        wild,
        area,
        line,
    }
}

/// A prefix list.
pub fn prefix_list_again(prefix_list: PrefixList) -> PrefixList
    ensures { result ≡ prefix_list }
{
    let PrefixList { name, entries } = prefix_list;
    let name: Text = name;
    let entries: List<PrefixEntry> = entries;
    PrefixList { name, entries }
}

/// An entry of a prefix list.
pub fn prefix_entry_again(prefix_entry: PrefixEntry) -> PrefixEntry
    ensures { result ≡ prefix_entry }
{
    let PrefixEntry {
        seq,
        permit,
        prefix,
        ge,
        le,
        line,
    } = prefix_entry;
    let seq: u32 = seq;
    let permit: bool = permit;
    let prefix: Prefix = prefix;
    let ge: Option<u8> = ge;
    let le: Option<u8> = le;
    let line: u32 = line;
    PrefixEntry {
        seq,
        permit,
        prefix,
        ge,
        le,
        line,
    }
}

/// A community list.
pub fn community_list_again(community_list: CommunityList) -> CommunityList
    ensures { result ≡ community_list }
{
    let CommunityList { name, lines } = community_list;
    let name: Text = name;
    let lines: List<CommunityLine> = lines;
    CommunityList { name, lines }
}

/// A line of a community list.
pub fn community_line_again(community_line: CommunityLine) -> CommunityLine
    ensures { result ≡ community_line }
{
    let CommunityLine {
        permit,
        comms,
        line,
    } = community_line;
    let permit: bool = permit;
    let comms: NumSet = comms;
    let line: u32 = line;
    CommunityLine {
        permit,
        comms,
        line,
    }
}

/// A route map.
pub fn route_map_again(route_map: RouteMap) -> RouteMap
    ensures { result ≡ route_map }
{
    let RouteMap { name, entries } = route_map;
    let name: Text = name;
    let entries: List<MapEntry> = entries;
    RouteMap { name, entries }
}

/// An entry of a route map.
pub fn map_entry_again(map_entry: MapEntry) -> MapEntry
    ensures { result ≡ map_entry }
{
    let MapEntry {
        seq,
        permit,
        line,
        prefixes,
        comms,
        exact,
        lp,
        change,
        change_line,
        delete,
        prepend,
    } = map_entry;
    let seq: u32 = seq;
    let permit: bool = permit;
    let line: u32 = line;
    let prefixes: Option<NameLine> = prefixes;
    let comms: Option<NameLine> = comms;
    let exact: bool = exact;
    let lp: Option<u32> = lp;
    let change: Option<Change> = change;
    let change_line: u32 = change_line;
    let delete: Option<Named> = delete;
    let prepend: Option<Prepend> = prepend;
    MapEntry {
        seq,
        permit,
        line,
        prefixes,
        comms,
        exact,
        lp,
        change,
        change_line,
        delete,
        prepend,
    }
}

/// The names that a match line gives.
pub fn name_line_again(name_line: NameLine) -> NameLine
    ensures { result ≡ name_line }
{
    let NameLine { names, line } = name_line;
    let names: List<Text> = names;
    let line: u32 = line;
    NameLine { names, line }
}

/// A `set as-path prepend` line.
pub fn prepend_again(prepend: Prepend) -> Prepend
    ensures { result ≡ prepend }
{
    let Prepend { numbers, line } = prepend;
    let numbers: List<u32> = numbers;
    let line: u32 = line;
    Prepend { numbers, line }
}

/// What a `set community` line does.
pub fn change_again(change: Change) -> Change
    ensures { result ≡ change }
{
    match change {
        Change::Clear => Change::Clear,
        Change::Replace(comms) => {
            let comms: NumSet = comms;
            Change::Replace(comms)
        }
        Change::Append(comms) => {
            let comms: NumSet = comms;
            Change::Append(comms)
        }
    }
}

/// Why a text is no network: the line at fault and its kind, or that memory ran out.
pub fn refusal_again(refusal: ReadRefusal) -> ReadRefusal
    ensures { result ≡ refusal }
{
    match refusal {
        ReadRefusal::At { line, kind } => {
            let line: u32 = line;
            let kind: Kind = kind;
            ReadRefusal::At { line, kind }
        }
        ReadRefusal::Memory => ReadRefusal::Memory,
    }
}
