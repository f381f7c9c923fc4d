//! The edges between groups.

ghost use Rattle.std.specs.Prelude.{◌≡◌, ℕ, ◌<◌, ◌^◌, ◌++◌, ◌&&◌, All, List, IfOk, OnOk, length, nat_eq, option_map, flat_map, if◌then◌else◌};
ghost use Rattle.std.specs.HashMap as map;
ghost use Rattle.std.specs.List.{enumerate_from};
ghost use Rattle.by_key.specs.ByKey.{by_key};
ghost use Rattle.srp_quotient.specs.Groups.{or_else, edge_into, lower_edge, listed, edges_of_link, importer_of, exporter_of, quotient_edges};
ghost use Rattle.abstract_net.specs.Carried.{IsBelow};
ghost use Rattle.base_kit.specs.Pairs.{same_pair};
ghost use Rattle.solution_lift.specs.Lasts.{last_between, standing};

use abstract_net::{QLink, act_at};
use base_kit::{Edge, List, NoMemory, Protocol};
use std::alloc::Global;
use std::collections::HashMap;

// Keeps the edge that a link carries into a group from another, if it carries one.
fn keep(
    lasts: &mut HashMap<(u32, u32), u32>,
    into: u32,
    from: u32,
    side: Option<u32>,
) -> Result<(), NoMemory>
    ensures { OnOk result ((g h : ℕ) → map.get same_pair lasts.new (g, h) ≡ (if nat_eq into g && nat_eq from h then or_else side (map.get same_pair lasts.old (g, h)) else map.get same_pair lasts.old (g, h))) }
{
    if let Some(edge) = side {
        lasts.insert((into, from), edge)?;
    }
    Ok(())
}

// The last edges that links carry into a group from another, by both groups.
fn lasts_of(alloc: Global, links: &[QLink]) -> Result<HashMap<(u32, u32), u32>, NoMemory>
    requires { All (λ (link : QLink). link.low < link.high) links.now }
    ensures { IfOk result (λ lasts. (g h : ℕ) → map.get same_pair lasts (g, h) ≡ last_between g h links.now) }
{
    let mut lasts = HashMap::new(alloc);
    for link in links {
        keep(&mut lasts, link.low, link.high, link.to_low)?;
        keep(&mut lasts, link.high, link.low, link.to_high)?;
    }
    Ok(lasts)
}

// The edge that stands at a link for one direction.
fn standing(
    protocol: Protocol,
    lasts: &HashMap<(u32, u32), u32>,
    into: u32,
    from: u32,
    side: Option<u32>,
) -> Option<u32>
    ensures { result ≡ standing protocol (map.get same_pair lasts.now (into, from)) side }
{
    match protocol {
        Protocol::Bgp => side,
        Protocol::Ospf => side.or(lasts.get(&(into, from)).copied()),
    }
}

fn push_direction(
    found: &mut Vec<Edge>,
    edges: &[Edge],
    place: u32,
    into: u32,
    from: u32,
    edge: Option<u32>,
) -> Result<(), NoMemory>
    ensures { OnOk result (found.new.items ≡ found.old.items ++ listed (option_map (lower_edge edges.now place into from) edge)) }
{
    if let Some(edge) = edge {
        found.push(Edge {
            importer: into,
            exporter: from,
            act: act_at(edges, edge),
            link: place,
        })?;
    }
    Ok(())
}

// Both directions of each link.
fn directions(
    alloc: Global,
    protocol: Protocol,
    edges: &[Edge],
    links: &[QLink],
) -> Result<Vec<Edge>, NoMemory>
    requires few { length links.now < 2 ^ 32 }
    requires apart { All (λ (link : QLink). link.low < link.high) links.now }
    ensures { IfOk result (λ found. found.items ≡ flat_map (edges_of_link protocol edges.now links.now) (enumerate_from 0 links.now)) }
{
    let lasts = lasts_of(alloc, links)?;
    let mut found = Vec::new(alloc);
    for place in 0..links.len() {
        let link = &links[place];
        let to_low = standing(protocol, &lasts, link.low, link.high, link.to_low);
        push_direction(&mut found, edges, place as u32, link.low, link.high, to_low)?;
        let to_high = standing(protocol, &lasts, link.high, link.low, link.to_high);
        push_direction(
            &mut found,
            edges,
            place as u32,
            link.high,
            link.low,
            to_high,
        )?;
    }
    Ok(found)
}

fn sort_by_exporter(edges: &mut Vec<Edge>) -> Result<(), NoMemory>
    ensures { IfOk result (λ _. (n : ℕ) → All (λ (edge : Edge). edge.exporter < n) edges.old.items → edges.new.items ≡ by_key exporter_of n edges.old.items) }
{
    edges.sort_by_key(|edge| edge.exporter)?;
    Ok(())
}

fn sort_by_importer(edges: &mut Vec<Edge>) -> Result<(), NoMemory>
    ensures { IfOk result (λ _. (n : ℕ) → All (λ (edge : Edge). edge.importer < n) edges.old.items → edges.new.items ≡ by_key importer_of n edges.old.items) }
{
    edges.sort_by_key(|edge| edge.importer)?;
    Ok(())
}

/// The edges between groups, by importer, exporter and link.
pub fn edges_of(
    alloc: Global,
    protocol: Protocol,
    edges: &[Edge],
    links: &[QLink],
) -> Result<List<Edge>, NoMemory>
    requires few { length links.now < 2 ^ 32 }
    requires apart { All (λ (link : QLink). link.low < link.high) links.now }
    ensures { IfOk result (λ found. (count : ℕ) → All (IsBelow count) links.now → found ≡ quotient_edges protocol edges.now count links.now) }
{
    let mut found = directions(alloc, protocol, edges, links)?;
    sort_by_exporter(&mut found)?;
    sort_by_importer(&mut found)?;
    Ok(List::from_vec(found))
}
