//! The acts that stand at the two ends of each link.

ghost use Rattle.std.specs.Prelude.{◌≡◌, map, IfOk, OnOk};
ghost use Rattle.std.specs.List.{enumerate_from};
ghost use Rattle.std.specs.Option.{option_map};
ghost use Rattle.abstract_net.specs.Carried.{act_at, side_of};
ghost use Rattle.srp_quotient.specs.Groups.{or_else};
ghost use Rattle.config_emit.specs.ActLinks.{group_pair, own_sides, sides_or, sides_at, NotesSides, AreLastSides, FillsSides, drawn, act_link_by, act_links};

use abstract_net::{QLink, act_at};
use base_kit::{Edge, NoMemory, Protocol};
use srp_core::Srp;
use std::alloc::Global;
use std::collections::HashMap;

/// A link of the groups with its number, and the acts that stand at it for its ends, by their places.
#[derive(Clone, Copy, Debug, PartialEq, Eq)]
pub(crate) struct ActLink {
    pub(crate) number: usize,
    pub(crate) low: u32,
    pub(crate) high: u32,
    pub(crate) to_low: Option<u32>,
    pub(crate) to_high: Option<u32>,
}

impl ActLink {
    ghost use Rattle.config_emit.specs.ActLinks.{act_to};

    /// The act into one of its ends.
    pub(crate) fn act_to(&self, group: u32) -> Option<u32>
        ensures { result ≡ act_to group self.now }
    {
        if self.low == group {
            self.to_low
        } else {
            self.to_high
        }
    }
}

/// Edges by their places, one into each end of a link.
#[derive(Clone, Copy, Debug, PartialEq, Eq)]
pub(crate) struct Sides {
    pub(crate) to_low: Option<u32>,
    pub(crate) to_high: Option<u32>,
}

fn side_of(group: u32, link: &QLink) -> Option<u32>
    ensures { result ≡ side_of group link.now }
{
    if link.low == group {
        link.to_low
    } else {
        link.to_high
    }
}

fn own_sides(link: &QLink) -> Sides
    ensures { result ≡ own_sides link.now }
{
    Sides {
        to_low: side_of(link.low, link),
        to_high: side_of(link.high, link),
    }
}

fn or_else(first: Option<u32>, other: Option<u32>) -> Option<u32>
    ensures { result ≡ or_else first other }
{
    match first {
        Some(edge) => Some(edge),
        None => other,
    }
}

// The edges of `sides`; where a side has none, that of `others`.
fn sides_or(sides: Sides, others: Sides) -> Sides
    ensures { result ≡ sides_or sides others }
{
    Sides {
        to_low: or_else(sides.to_low, others.to_low),
        to_high: or_else(sides.to_high, others.to_high),
    }
}

/// The edges kept for a pair of groups.
pub(crate) fn sides_at(last: &HashMap<(u32, u32), Sides>, pair: (u32, u32)) -> Sides
    ensures { result ≡ sides_at last.now pair }
{
    match last.get(&pair) {
        Some(sides) => *sides,
        None => Sides {
            to_low: None,
            to_high: None,
        },
    }
}

// The edges that stand at a link.
fn filled_sides(fill: &HashMap<(u32, u32), Sides>, link: &QLink) -> Sides
    ensures { result ≡ sides_or (own_sides link.now) (sides_at fill.now (group_pair link.now)) }
{
    sides_or(own_sides(link), sides_at(fill, (link.low, link.high)))
}

fn note_sides(last: &mut HashMap<(u32, u32), Sides>, link: &QLink) -> Result<(), NoMemory>
    ensures { OnOk result (NotesSides last.old last.new link.now) }
{
    let sides = filled_sides(last, link);
    last.insert((link.low, link.high), sides)?;
    Ok(())
}

/// For each pair of groups the last edges that its links carry into both.
pub(crate) fn last_sides(
    alloc: Global,
    links: &[QLink],
) -> Result<HashMap<(u32, u32), Sides>, NoMemory>
    ensures { IfOk result (λ last. AreLastSides last links.now) }
{
    let mut last: HashMap<(u32, u32), Sides> = HashMap::new(alloc);
    for link in links {
        note_sides(&mut last, link)?;
    }
    Ok(last)
}

fn some_act_at(edges: &[Edge], place: Option<u32>) -> Option<u32>
    ensures { result ≡ option_map (act_at edges.now) place }
{
    match place {
        Some(place) => Some(act_at(edges, place)),
        None => None,
    }
}

fn drawn(edges: &[Edge], number: usize, link: &QLink, sides: Sides) -> ActLink
    ensures { result ≡ drawn edges.now number link.now sides }
{
    ActLink {
        number,
        low: link.low,
        high: link.high,
        to_low: some_act_at(edges, sides.to_low),
        to_high: some_act_at(edges, sides.to_high),
    }
}

// For each pair of groups, the edges that fill the sides of its links. In OSPF, where both ends have a
// cost, they are the last ones of the pair; in BGP there are none.
fn filling_sides(
    alloc: Global,
    protocol: Protocol,
    links: &[QLink],
) -> Result<HashMap<(u32, u32), Sides>, NoMemory>
    ensures { IfOk result (λ fill. FillsSides protocol links.now fill) }
{
    match protocol {
        Protocol::Bgp => Ok(HashMap::new(alloc)),
        Protocol::Ospf => last_sides(alloc, links),
    }
}

fn links_filled_by(
    alloc: Global,
    fill: &HashMap<(u32, u32), Sides>,
    edges: &[Edge],
    links: &[QLink],
) -> Result<Vec<ActLink>, NoMemory>
    ensures { IfOk result (λ found. found.items ≡ map (act_link_by fill.now edges.now) (enumerate_from 0 links.now)) }
{
    let mut found = Vec::with_capacity(alloc, links.len())?;
    for i in 0..links.len() {
        let link = &links[i];
        found.push(drawn(edges, i, link, filled_sides(fill, link)))?;
    }
    Ok(found)
}

/// All links of the groups with their acts, in order.
pub(crate) fn act_links(alloc: Global, srp: &Srp, links: &[QLink]) -> Result<Vec<ActLink>, NoMemory>
    ensures { IfOk result (λ found. found.items ≡ act_links srp.now.protocol srp.now.edges links.now) }
{
    let fill = filling_sides(alloc, srp.protocol(), links)?;
    let found = links_filled_by(alloc, &fill, srp.edges(), links)?;
    Ok(found)
}
