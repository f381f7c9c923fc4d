//! The members of a block that a split moves.

ghost use Rattle.std.specs.Prelude.{◌≡◌, ◌<◌, All, IfOk, OnOk, false, length, true};
ghost use Rattle.cut_certificate.specs.Moves.{AllMove, AreAdded, AreIncoming, AreMembersListed, AreMovers, AreRenumbered, HasImporters, HasMovers, HasStayer, AreStillMembersListed, is_mover};
ghost use Rattle.cut_certificate.specs.Outgoing.{AreIndexed};

use crate::certificate::Split;
use crate::mirrors::leads_into;
use crate::outgoing::Placed;
use base_kit::{ActGraph, NoMemory};
use std::alloc::Global;

// Whether the router is a member of the divided block and has an edge with this act into the other one.
fn is_mover(
    graph: &ActGraph,
    outgoing: &[Vec<Placed>],
    numbers: &[usize],
    split: Split,
    act: u32,
    router: u32,
) -> bool
    requires index { AreIndexed graph.now outgoing.now }
    requires total { length numbers.now ≡ graph.now.count }
    ensures { result ≡ is_mover graph.now.edges numbers.now split.block split.by act router }
{
    if router >= graph.count {
        return false;
    }
    let number = numbers[router as usize];
    if number != split.block as usize {
        return false;
    }
    let list = outgoing[router as usize].as_slice();
    leads_into(list, numbers, split.by as usize, act)
}

// Adds the importers of the edges with this act.
fn add_importers(found: &mut Vec<u32>, edges: &[Placed], act: u32) -> Result<(), NoMemory>
    ensures { OnOk result (AreAdded found.old.items found.new.items edges.now act) }
{
    for p in edges {
        if p.edge.act == act {
            found.push(p.edge.importer)?;
        }
    }
    Ok(())
}

// The importers of the edges with this act from the listed routers.
fn importers(
    alloc: Global,
    incoming: &[Vec<Placed>],
    list: &[u32],
    act: u32,
) -> Result<Vec<u32>, NoMemory>
    requires known { All (λ router. router < length incoming.now) list.now }
    ensures { IfOk result (λ v. HasImporters incoming.now list.now act v.items) }
{
    let mut found = Vec::new(alloc);
    for exporter in list {
        add_importers(&mut found, &incoming[*exporter as usize], act)?;
    }
    Ok(found)
}

// How many routers and edges there are to go through, up to a number.
fn weight(edges: &[Vec<Placed>], routers: &[u32], most: usize) -> usize {
    let mut found = 0usize;
    for router in routers {
        if let Some(list) = edges.get(*router as usize) {
            found = found.saturating_add(list.len()).saturating_add(1);
        }
        if found >= most {
            return most;
        }
    }
    found
}

// Whether to go through the edges into `by` takes less than through those out of the block, or as much where
// `by` has no more routers. What has fewer routers is counted first, and limits how much of the other is.
fn is_lighter(
    incoming: &[Vec<Placed>],
    by: &[u32],
    outgoing: &[Vec<Placed>],
    block: &[u32],
) -> bool {
    if by.len() <= block.len() {
        let into = weight(incoming, by, usize::MAX);
        return weight(outgoing, block, into) >= into;
    }
    let out = weight(outgoing, block, usize::MAX);
    weight(incoming, by, out) < out
}

// Routers among which all movers are: the importers over the edges into the other block, or the divided
// block, whichever is less to go through.
fn candidates(
    alloc: Global,
    graph: &ActGraph,
    outgoing: &[Vec<Placed>],
    incoming: &[Vec<Placed>],
    numbers: &[usize],
    lists: &[Vec<u32>],
    split: Split,
    act: u32,
) -> Result<Vec<u32>, NoMemory>
    requires incoming { AreIncoming graph.now incoming.now }
    requires total { length numbers.now ≡ graph.now.count }
    requires listed { AreMembersListed numbers.now lists.now }
    requires block { split.block < length lists.now }
    requires by { split.by < length lists.now }
    ensures { IfOk result (λ v. HasMovers graph.now.edges numbers.now split.block split.by act v.items) }
{
    let block = &lists[split.block as usize];
    let by = &lists[split.by as usize];
    if is_lighter(incoming, by, outgoing, block) {
        let found = importers(alloc, incoming, by, act)?;
        return Ok(found);
    }
    let all = Vec::from_slice(alloc, block)?;
    Ok(all)
}

/// The members that a split moves.
pub(crate) fn movers(
    alloc: Global,
    graph: &ActGraph,
    outgoing: &[Vec<Placed>],
    incoming: &[Vec<Placed>],
    numbers: &[usize],
    lists: &[Vec<u32>],
    split: Split,
    act: u32,
) -> Result<Vec<u32>, NoMemory>
    requires index { AreIndexed graph.now outgoing.now }
    requires incoming { AreIncoming graph.now incoming.now }
    requires total { length numbers.now ≡ graph.now.count }
    requires listed { AreMembersListed numbers.now lists.now }
    requires block { split.block < length lists.now }
    requires by { split.by < length lists.now }
    ensures { IfOk result (λ v. AreMovers graph.now.edges numbers.now split.block split.by act v.items) }
{
    let mut movers = candidates(alloc, graph, outgoing, incoming, numbers, lists, split, act)?;
    movers.retain(|router| is_mover(graph, outgoing, numbers, split, act, *router));
    movers.sort()?;
    movers.dedup();
    Ok(movers)
}

/// Whether a member of the divided block stays. Routers that have left the block are dropped from its
/// list where they are met.
pub(crate) fn has_stayer(
    graph: &ActGraph,
    outgoing: &[Vec<Placed>],
    numbers: &[usize],
    list: &mut Vec<u32>,
    split: Split,
    act: u32,
) -> bool
    requires index { AreIndexed graph.now outgoing.now }
    requires total { length numbers.now ≡ graph.now.count }
    requires routers { All (λ u. u < length numbers.now) list.old.items }
    ensures listed { AreStillMembersListed numbers.now split.block list.old.items list.new.items }
    ensures stays { result ≡ true → HasStayer graph.now.edges numbers.now split.block split.by act }
    ensures none { result ≡ false → AllMove graph.now.edges numbers.now split.block split.by act list.old.items }
{
    let mut place = 0;
    while place < list.len() {
        let router = list[place];
        if numbers[router as usize] != split.block as usize {
            list.swap_remove(place);
        } else if is_mover(graph, outgoing, numbers, split, act, router) {
            place += 1;
        } else {
            return true;
        }
    }
    false
}

/// Gives the movers the next number.
pub(crate) fn renumber(numbers: &mut Vec<usize>, movers: &[u32], next: usize)
    requires known { All (λ u. u < length numbers.old.items) movers.now }
    ensures { AreRenumbered numbers.old.items movers.now next numbers.new.items }
{
    for router in movers {
        numbers[*router as usize] = next;
    }
}
