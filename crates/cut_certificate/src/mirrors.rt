//! Whether the members of blocks mirror each other's edges into other blocks.

ghost use Rattle.std.specs.Prelude.{◌≡◌, ◌<◌, All, IfSome, length};
ghost use Rattle.std.specs.List.{list_all, list_any};
ghost use Rattle.std.specs.Option.{is_none};
ghost use Rattle.cut_certificate.specs.Blocks.{leads_into};
ghost use Rattle.cut_certificate.specs.Evenness.{is_even, is_mirrored, mirror_each_other};
ghost use Rattle.cut_certificate.specs.Outgoing.{AreIndexed};
ghost use Rattle.cut_certificate.specs.Uneven.{IsUnmatched};

use crate::outgoing::Placed;
use base_kit::{ActGraph, List};

/// Whether an edge of the list has this act and comes from the block.
pub(crate) fn leads_into(list: &[Placed], numbers: &[usize], block: usize, act: u32) -> bool
    requires { All (λ p. p.edge.exporter < length numbers.now) list.now }
    ensures { result ≡ list_any (λ p. leads_into numbers.now block act p.edge) list.now }
{
    for p in list {
        if p.edge.act == act && numbers[p.edge.exporter as usize] == block {
            return true;
        }
    }
    false
}

/// The first edge of the router into another block of which the other router has no twin.
pub(crate) fn unmatched(
    graph: &ActGraph,
    outgoing: &[Vec<Placed>],
    numbers: &[usize],
    router: u32,
    other: u32,
) -> Option<Placed>
    requires index { AreIndexed graph.now outgoing.now }
    requires total { length numbers.now ≡ graph.now.count }
    requires router { router < graph.now.count }
    requires other { other < graph.now.count }
    ensures mirrored { is_none result ≡ is_mirrored graph.now.edges numbers.now router other }
    ensures found { IfSome result (λ p. IsUnmatched graph.now.edges numbers.now p router other) }
{
    let block = numbers[router as usize];
    let list = outgoing[router as usize].as_slice();
    let others = outgoing[other as usize].as_slice();
    for p in list {
        let into = numbers[p.edge.exporter as usize];
        if into != block && !leads_into(others, numbers, into, p.edge.act) {
            return Some(*p);
        }
    }
    None
}

fn is_mirrored(
    graph: &ActGraph,
    outgoing: &[Vec<Placed>],
    numbers: &[usize],
    router: u32,
    other: u32,
) -> bool
    requires index { AreIndexed graph.now outgoing.now }
    requires total { length numbers.now ≡ graph.now.count }
    requires router { router < graph.now.count }
    requires other { other < graph.now.count }
    ensures { result ≡ is_mirrored graph.now.edges numbers.now router other }
{
    unmatched(graph, outgoing, numbers, router, other).is_none()
}

fn mirror_each_other(
    graph: &ActGraph,
    outgoing: &[Vec<Placed>],
    numbers: &[usize],
    router: u32,
    other: u32,
) -> bool
    requires index { AreIndexed graph.now outgoing.now }
    requires total { length numbers.now ≡ graph.now.count }
    requires router { router < graph.now.count }
    requires other { other < graph.now.count }
    ensures { result ≡ mirror_each_other graph.now.edges numbers.now router other }
{
    is_mirrored(graph, outgoing, numbers, router, other)
        && is_mirrored(graph, outgoing, numbers, other, router)
}

fn is_even(graph: &ActGraph, outgoing: &[Vec<Placed>], numbers: &[usize], members: &[u32]) -> bool
    requires index { AreIndexed graph.now outgoing.now }
    requires total { length numbers.now ≡ graph.now.count }
    requires members { All (λ router. router < graph.now.count) members.now }
    ensures { result ≡ is_even graph.now.edges numbers.now members.now }
{
    match members {
        [] => true,
        [first, rest @ ..] => {
            for router in rest {
                if !mirror_each_other(graph, outgoing, numbers, *first, *router) {
                    return false;
                }
            }
            true
        }
    }
}

/// Whether the members of each group mirror each other.
pub(crate) fn are_even(
    graph: &ActGraph,
    outgoing: &[Vec<Placed>],
    numbers: &[usize],
    groups: &[List<u32>],
) -> bool
    requires index { AreIndexed graph.now outgoing.now }
    requires total { length numbers.now ≡ graph.now.count }
    requires members { All (All (λ router. router < graph.now.count)) groups.now }
    ensures { result ≡ list_all (is_even graph.now.edges numbers.now) groups.now }
{
    for group in groups {
        if !is_even(graph, outgoing, numbers, group.as_slice()) {
            return false;
        }
    }
    true
}
