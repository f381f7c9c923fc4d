//! Builds three diagrams of many variables and prints how many nodes each has.
//!
//! A conjunction of 200 variables needs a node for each, and so does its negation. The disjunction of
//! the 200 conjunctions of two neighbours among 201 variables needs one node for the first variable
//! and the last, and two for each between: the variable before was true, or it was not. What is
//! printed is compared with these numbers: 200, 200 and 400.
#![tactic(auto)]

ghost use Rattle.std.specs.Prelude.{◌<◌, length, IfOk};

use base_kit::{Community, NoMemory, NumSet};
use dd_core::{NodeId, Store};
use std::alloc::Global;
use thiserror::Error;

#[derive(Debug, Drop, Error)]
enum BenchError {
    #[error("out of memory")]
    Memory,
    #[error("the number is not one of the store's")]
    Unknown,
}

impl From<NoMemory> for BenchError {
    fn from(_: NoMemory) -> Self {
        BenchError::Memory
    }
}

#[derive(Clone, Copy)]
struct Sizes {
    conjunction: usize,
    negation: usize,
    neighbours: usize,
}

// The node, which is one of the store.
fn known(store: &Store, a: NodeId) -> Result<NodeId, BenchError>
    ensures { IfOk result (λ node. node < length store.now.nodes) }
{
    if a.place() < store.len() {
        return Ok(a);
    }
    Err(BenchError::Unknown)
}

fn var(store: &mut Store, community: u32) -> Result<NodeId, BenchError> {
    if store.universe().has(community) {
        let node = store.var(Community(community))?;
        return Ok(node);
    }
    Err(BenchError::Unknown)
}

fn not(store: &mut Store, a: NodeId) -> Result<NodeId, BenchError> {
    let a = known(store, a)?;
    let node = store.not(a)?;
    Ok(node)
}

fn and(store: &mut Store, a: NodeId, b: NodeId) -> Result<NodeId, BenchError> {
    let a = known(store, a)?;
    let b = known(store, b)?;
    let node = store.and(a, b)?;
    Ok(node)
}

fn or(store: &mut Store, a: NodeId, b: NodeId) -> Result<NodeId, BenchError> {
    let a = known(store, a)?;
    let b = known(store, b)?;
    let node = store.or(a, b)?;
    Ok(node)
}

fn conjunction(store: &mut Store) -> Result<NodeId, BenchError> {
    let mut all = store.constant(true);
    for community in (1..201).rev() {
        let here = var(store, community)?;
        all = and(store, here, all)?;
    }
    Ok(all)
}

fn neighbours(store: &mut Store) -> Result<NodeId, BenchError> {
    let mut some = store.constant(false);
    let mut next = var(store, 201)?;
    for community in (1..201).rev() {
        let here = var(store, community)?;
        let both = and(store, here, next)?;
        some = or(store, both, some)?;
        next = here;
    }
    Ok(some)
}

fn size(store: &Store, a: NodeId) -> Result<usize, BenchError> {
    let a = known(store, a)?;
    let size = store.size(a)?;
    Ok(size)
}

fn counted_in(store: &mut Store) -> Result<Sizes, BenchError> {
    let all = conjunction(store)?;
    let negation = not(store, all)?;
    let some = neighbours(store)?;
    Ok(Sizes {
        conjunction: size(store, all)?,
        negation: size(store, negation)?,
        neighbours: size(store, some)?,
    })
}

fn universe(alloc: Global) -> Result<NumSet, BenchError> {
    let mut universe = NumSet::new(alloc);
    for community in 1..202 {
        universe.add(community)?;
    }
    Ok(universe)
}

fn counted(alloc: Global) -> Result<Sizes, BenchError> {
    let universe = universe(alloc)?;
    let mut store = Store::new(alloc, &universe)?;
    counted_in(&mut store)
}

fn main(rt: HostRuntime) -> anyhow::Result<()> {
    let sizes = counted(rt.alloc())?;
    println!(rt; "conjunction: {} nodes", sizes.conjunction)?;
    println!(rt; "its negation: {} nodes", sizes.negation)?;
    println!(rt; "neighbours: {} nodes", sizes.neighbours)?;
    Ok(())
}
