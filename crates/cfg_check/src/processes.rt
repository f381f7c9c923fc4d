//! AS numbers, peers and protocols of the network.

ghost use Rattle.std.specs.Prelude.{◌≡◌, IfOk, map, filter, filter_map, flat_map, slice_get, nat_eq};
ghost use Rattle.std.specs.Option.{option_map};
ghost use Rattle.cfg_ast.specs.meaning.RouterFaults.{repeats, unlike_first, internal_peers, internal_peers_of, protocol_lines_of, is_same_protocol, same_protocol, areas_of};
ghost use Rattle.cfg_check.specs.Items.{process_line, neighbor_line, area_line, line_of_protocol, bgp_of, same_number, same_area};
ghost use Rattle.cfg_check.specs.LeastLine.{least_line};
ghost use Rattle.cfg_check.specs.Processes.{numbered_of, line_of_numbered, same_numbered, protocol_in, has_other_protocol, area_in, has_other_area};

use crate::gather::push_some;
use crate::least::{lesser_line, with_line_if};
use base_kit::{NoMemory, Protocol};
use cfg_ast::{AreaLine, BgpProcess, Router};
use number_hashing::{NumberDigest, NumberHashing};
use std::alloc::Global;
use std::collections::HashSet;

/// The AS number of a BGP process, and its line.
#[derive(Clone, Copy)]
pub(crate) struct Numbered {
    pub(crate) number: u32,
    pub(crate) line: u32,
}

fn number_of(router: &Router) -> Option<Numbered>
    ensures { result ≡ numbered_of router.now }
{
    let process = router.bgp.as_ref()?;
    Some(Numbered {
        number: process.number,
        line: process.line,
    })
}

fn numbers_of(alloc: Global, routers: &[Router]) -> Result<Vec<Numbered>, NoMemory>
    ensures { IfOk result (λ all. all.items ≡ filter_map numbered_of routers.now) }
{
    let mut all = Vec::new(alloc);
    for router in routers {
        push_some(&mut all, number_of(router))?;
    }
    Ok(all)
}

// The hash for a table of the numbers.
fn hashing_of(all: &[Numbered]) -> NumberHashing {
    let mut numbers = NumberDigest::for_count(all.len());
    for process in all {
        numbers.add_number(u64::from(process.number));
    }
    numbers.hashing()
}

fn repeated_number(alloc: Global, all: &[Numbered]) -> Result<Option<u32>, NoMemory>
    ensures { IfOk result (λ line. line ≡ least_line (map line_of_numbered (repeats same_numbered all.now))) }
{
    let mut seen: HashSet<u32, NumberHashing> = HashSet::with_hasher(alloc, hashing_of(all));
    let mut least = None;
    for process in all {
        let is_new = seen.insert(process.number)?;
        least = with_line_if(least, !is_new, process.line);
    }
    Ok(least)
}

#[tactic(auto, using(crate::proofs::Numbers::shared_numbers))]
/// The least `router bgp` line that repeats an earlier router's number.
pub(crate) fn shared_as(alloc: Global, routers: &[Router]) -> Result<Option<u32>, NoMemory>
    ensures { IfOk result (λ line. line ≡ least_line (map process_line (repeats same_number (filter_map bgp_of routers.now)))) }
{
    let all = numbers_of(alloc, routers)?;
    repeated_number(alloc, all.as_slice())
}

fn internal_peer_in(process: &BgpProcess) -> Option<u32>
    ensures { result ≡ least_line (map neighbor_line (internal_peers process.now)) }
{
    let mut least = None;
    for neighbor in process.neighbors.as_slice() {
        least = with_line_if(least, neighbor.remote == process.number, neighbor.line);
    }
    least
}

fn internal_peer_of(router: &Router) -> Option<u32>
    ensures { result ≡ least_line (map neighbor_line (internal_peers_of router.now)) }
{
    match &router.bgp {
        Some(process) => internal_peer_in(process),
        None => None,
    }
}

/// The least `remote-as` line with the router's own number.
pub(crate) fn internal_peer(routers: &[Router]) -> Option<u32>
    ensures { result ≡ least_line (map neighbor_line (flat_map internal_peers_of routers.now)) }
{
    let mut least = None;
    for router in routers {
        least = lesser_line(least, internal_peer_of(router));
    }
    least
}

fn first_protocol_of(router: &Router) -> Option<Protocol>
    ensures { result ≡ protocol_in (protocol_lines_of router.now) }
{
    match (&router.bgp, &router.ospf) {
        (None, None) => None,
        (Some(_), None) => Some(Protocol::Bgp),
        (None, Some(_)) => Some(Protocol::Ospf),
        (Some(bgp), Some(ospf)) => Some(if bgp.line < ospf.line {
            Protocol::Bgp
        } else {
            Protocol::Ospf
        }),
    }
}

/// The protocol of the first `router` line.
pub(crate) fn first_protocol(routers: &[Router]) -> Option<Protocol>
    ensures { result ≡ protocol_in (flat_map protocol_lines_of routers.now) }
{
    for router in routers {
        let protocol = first_protocol_of(router);
        if protocol.is_some() {
            return protocol;
        }
    }
    None
}

fn other_protocol_of(router: &Router, protocol: Protocol) -> Option<u32>
    ensures { result ≡ least_line (map line_of_protocol (filter (has_other_protocol protocol) (protocol_lines_of router.now))) }
{
    match protocol {
        Protocol::Bgp => match &router.ospf {
            Some(process) => Some(process.line),
            None => None,
        },
        Protocol::Ospf => match &router.bgp {
            Some(process) => Some(process.line),
            None => None,
        },
    }
}

fn other_protocol(routers: &[Router], protocol: Protocol) -> Option<u32>
    ensures { result ≡ least_line (map line_of_protocol (filter (has_other_protocol protocol) (flat_map protocol_lines_of routers.now))) }
{
    let mut least = None;
    for router in routers {
        least = lesser_line(least, other_protocol_of(router, protocol));
    }
    least
}

/// The least `router` line of another protocol than the first one.
pub(crate) fn mixed_protocols(routers: &[Router]) -> Option<u32>
    ensures { result ≡ least_line (map line_of_protocol (unlike_first same_protocol (flat_map protocol_lines_of routers.now))) }
{
    let protocol = first_protocol(routers)?;
    other_protocol(routers, protocol)
}

/// The OSPF `network` lines of the router.
pub(crate) fn areas(router: &Router) -> &[AreaLine]
    ensures { result.now ≡ areas_of router.now }
{
    match &router.ospf {
        Some(process) => process.areas.as_slice(),
        None => &[],
    }
}

/// The area of the first OSPF `network` line.
pub(crate) fn first_area(routers: &[Router]) -> Option<u32>
    ensures { result ≡ area_in (flat_map areas_of routers.now) }
{
    for router in routers {
        if let Some(line) = areas(router).first() {
            return Some(line.area);
        }
    }
    None
}

fn other_area_of(lines: &[AreaLine], area: u32) -> Option<u32>
    ensures { result ≡ least_line (map area_line (filter (has_other_area area) lines.now)) }
{
    let mut least = None;
    for line in lines {
        least = with_line_if(least, line.area != area, line.line);
    }
    least
}

fn any_other_area(routers: &[Router], area: u32) -> Option<u32>
    ensures { result ≡ least_line (map area_line (filter (has_other_area area) (flat_map areas_of routers.now))) }
{
    let mut least = None;
    for router in routers {
        least = lesser_line(least, other_area_of(areas(router), area));
    }
    least
}

/// The least OSPF `network` line with another area than the first one.
pub(crate) fn other_area(routers: &[Router]) -> Option<u32>
    ensures { result ≡ least_line (map area_line (unlike_first same_area (flat_map areas_of routers.now))) }
{
    let area = first_area(routers)?;
    any_other_area(routers, area)
}
