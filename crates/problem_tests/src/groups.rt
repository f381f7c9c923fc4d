//! Partitions of small graphs, and how many turns they take.

ghost use Rattle.std.specs.Prelude.{◌≡◌, ◌<◌, All, IfOk, length};

use base_kit::{ActGraph, Edge, List, NoMemory, Steps};
use refine_partition::{Partition, Splitting, coarsest, start};
use std::alloc::Global;
use std::marker::Brand;
use std::sync::ledger::{Blank, Ledger};
use std::test::Fail;

fn edge(importer: u32, exporter: u32, act: u32) -> Edge
    ensures importer { result.importer ≡ importer }
    ensures exporter { result.exporter ≡ exporter }
{
    Edge {
        importer,
        exporter,
        act,
        link: 0,
    }
}

fn counted<L: Ledger>(alloc: Global, graph: &ActGraph, blank: Blank) -> Result<Partition, NoMemory>
    requires name { blank.name ≡ L.name }
    requires parts { blank.parts ≡ L.parts }
    requires some { 0 < L.parts }
    ensures { IfOk result (λ p. length p ≡ graph.now.count) }
{
    let mut turns = Steps::<L>::new(blank);
    let partition = coarsest(alloc, graph, &mut turns)?;
    Ok(partition)
}

fn uncounted(alloc: Global, graph: &ActGraph) -> Result<Partition, NoMemory>
    ensures { IfOk result (λ p. length p ≡ graph.now.count) }
{
    counted::<Brand>(alloc, graph, Blank::new(1))
}

/// Four routers, of which the last three reach the first by edges of one act, and two of them each other.
fn inner_edges(alloc: Global) -> Result<ActGraph, Fail>
    ensures { IfOk result (λ g. g.count ≡ 4) }
{
    Ok(ActGraph {
        count: 4,
        colors: List::from_vec(vec![in alloc; 0, 1, 1, 1]?),
        edges: List::from_vec(vec![in alloc;
            edge(1, 0, 0),
            edge(2, 0, 0),
            edge(3, 0, 0),
            edge(1, 2, 0),
            edge(2, 1, 0),
        ]?),
    })
}

/// A ring of four routers, the first of its own color.
fn ring(alloc: Global) -> Result<ActGraph, Fail>
    ensures { IfOk result (λ g. g.count ≡ 4) }
{
    Ok(ActGraph {
        count: 4,
        colors: List::from_vec(vec![in alloc; 0, 1, 1, 1]?),
        edges: List::from_vec(vec![in alloc;
            edge(0, 1, 0),
            edge(1, 0, 0),
            edge(1, 2, 0),
            edge(2, 1, 0),
            edge(2, 3, 0),
            edge(3, 2, 0),
            edge(3, 0, 0),
            edge(0, 3, 0),
        ]?),
    })
}

/// A row of five routers with two acts, the third of its own color, and a router alone.
fn row(alloc: Global) -> Result<ActGraph, Fail> {
    Ok(ActGraph {
        count: 6,
        colors: List::from_vec(vec![in alloc; 3, 3, 7, 3, 3, 3]?),
        edges: List::from_vec(vec![in alloc;
            edge(0, 1, 4),
            edge(1, 0, 4),
            edge(1, 2, 4),
            edge(2, 1, 4),
            edge(2, 3, 9),
            edge(3, 2, 4),
            edge(3, 4, 4),
            edge(4, 3, 4),
        ]?),
    })
}

fn has_twin(edges: &[Edge], groups: &[u32], router: u32, edge: &Edge) -> bool
    requires in_range { All (λ e. e.exporter < length groups.now) edges.now }
    requires edge_in_range { edge.now.exporter < length groups.now }
{
    let group = groups[edge.exporter as usize];
    edges.iter().any(|other| {
        other.importer == router
            && other.act == edge.act
            && groups[other.exporter as usize] == group
    })
}

fn is_mirrored_at(edges: &[Edge], groups: &[u32], router: u32, other: u32) -> bool
    requires in_range { All (λ e. e.exporter < length groups.now) edges.now }
    requires router_in_range { router < length groups.now }
{
    edges.iter().all(|edge| {
        edge.importer != router
            || groups[edge.exporter as usize] == groups[router as usize]
            || has_twin(edges, groups, other, edge)
    })
}

fn leader(edges: &[Edge], groups: &[u32], router: u32) -> u32
    requires in_range { All (λ e. e.exporter < length groups.now) edges.now }
    requires router_in_range { router < length groups.now }
{
    for other in 0..router {
        if groups[other as usize] == groups[router as usize]
            && is_mirrored_at(edges, groups, other, router)
            && is_mirrored_at(edges, groups, router, other)
        {
            return other;
        }
    }
    router
}

/// One more round of the plain refinement, which compares all edges of all routers.
fn round(alloc: Global, graph: &ActGraph, groups: &[u32]) -> Result<Vec<u32>, NoMemory>
    requires { length groups.now ≡ graph.now.count }
    ensures { IfOk result (λ v. length v.items ≡ graph.now.count) }
{
    let mut leaders = Vec::new(alloc);
    for router in 0..graph.count {
        leaders.push(leader(graph.edges.as_slice(), groups, router))?;
    }
    Ok(leaders)
}

/// The groups after as many rounds as there are routers.
fn plain(alloc: Global, graph: &ActGraph) -> Result<Vec<u32>, NoMemory>
    ensures { IfOk result (λ v. length v.items ≡ graph.now.count) }
{
    let mut groups = Vec::from_slice(alloc, graph.colors.as_slice())?;
    for _round in 0..graph.count {
        groups = round(alloc, graph, &groups)?;
    }
    Ok(groups)
}

fn agrees(alloc: Global, graph: &ActGraph) -> Result<bool, NoMemory> {
    let partition = uncounted(alloc, graph)?;
    let groups = plain(alloc, graph)?;
    for u in 0..graph.count {
        for v in 0..graph.count {
            let together = partition.group_of(u) == partition.group_of(v);
            if together != (groups[u as usize] == groups[v as usize]) {
                return Ok(false);
            }
        }
    }
    Ok(true)
}

#[test]
fn edges_inside_a_group_are_exempt(rt: HostRuntime) -> Result<(), Fail> {
    let graph = inner_edges(rt.alloc())?;
    let partition = uncounted(rt.alloc(), &graph)?;
    assert_eq!(rt; partition.groups(), 2);
    assert!(rt; partition.group_of(0) == 0 && partition.group_of(1) == 1);
    assert!(rt; partition.group_of(2) == 1 && partition.group_of(3) == 1);
    Ok(())
}

#[test]
fn a_ring_has_three_groups(rt: HostRuntime) -> Result<(), Fail> {
    let graph = ring(rt.alloc())?;
    let partition = uncounted(rt.alloc(), &graph)?;
    assert_eq!(rt; partition.groups(), 3);
    assert!(rt; partition.group_of(1) == 1 && partition.group_of(2) == 2);
    assert!(rt; partition.group_of(3) == 1);
    Ok(())
}

fn split_ring<L: Ledger>(alloc: Global, blank: Blank) -> Result<Splitting, Fail>
    requires name { blank.name ≡ L.name }
    requires parts { blank.parts ≡ L.parts }
    requires some { 0 < L.parts }
{
    let graph = ring(alloc)?;
    let mut turns = Steps::<L>::new(blank);
    let mut splitting = start(alloc, &graph)?;
    if 0 < splitting.blocks() {
        splitting.split_by(&graph, 0, &mut turns)?;
    }
    Ok(splitting)
}

fn split_ring_uncounted(alloc: Global) -> Result<Splitting, Fail> {
    split_ring::<Brand>(alloc, Blank::new(1))
}

#[test]
fn the_first_router_divides_the_ring(rt: HostRuntime) -> Result<(), Fail> {
    let splitting = split_ring_uncounted(rt.alloc())?;
    let count = splitting.blocks();
    assert_eq!(rt; count, 3);
    if count == 3 {
        assert!(rt; splitting.block(0) == [0].as_slice());
        assert!(rt; splitting.block(1) == [1, 3].as_slice());
        assert!(rt; splitting.block(2) == [2].as_slice());
    }
    Ok(())
}

#[test]
fn the_plain_refinement_agrees(rt: HostRuntime) -> Result<(), Fail> {
    let first = inner_edges(rt.alloc())?;
    let second = ring(rt.alloc())?;
    let third = row(rt.alloc())?;
    assert!(rt; agrees(rt.alloc(), &first)?);
    assert!(rt; agrees(rt.alloc(), &second)?);
    assert!(rt; agrees(rt.alloc(), &third)?);
    Ok(())
}
