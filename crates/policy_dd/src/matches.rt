//! Where a list permits what is carried.

ghost use Rattle.std.specs.Prelude.{◌≡◌, ◌<◌, ◌∷◌, [], length, IfOk, IfSome, ◌&&◌, not, true};
ghost use Rattle.std.specs.List.{list_all, list_any, AllByRecursion};
ghost use Rattle.base_kit.specs.Sets.{has};
ghost use Rattle.cfg_ast.specs.meaning.Lists.{first_line_decides};
ghost use Rattle.route_maps.specs.Within.{AreWithin, IsLineWithin, AreListsWithin};
ghost use Rattle.dd_core.specs.Sets.{value_of, Grows, Means};
ghost use Rattle.policy_dd.specs.Matches.{has_in, AreNodesInside, IsDecision, IsDecisionInside, IsFirstDecision, line_by, list_by, entry_by};

use crate::exact::exact_answer;
use crate::tables::node_of;
use base_kit::{Community, List, NoMemory};
use cfg_ast::{CommunityLine, CommunityList};
use dd_core::{NodeId, Store};
use route_maps::PlainEntry;
use std::alloc::Global;

/// What a route carries, by the set that it began with: communities with nodes of their own, the other
/// communities of the set where `rest` is true, and some community outside the universe where `others`
/// is.
#[derive(Drop)]
pub struct Carried {
    pub outs: List<(u32, NodeId)>,
    pub rest: NodeId,
    pub others: NodeId,
}

/// `a` where `b` is false.
pub fn without(store: &mut Store, a: NodeId, b: NodeId) -> Result<NodeId, NoMemory>
    requires a_inside { a < length store.old.nodes }
    requires b_inside { b < length store.old.nodes }
    ensures grows { Grows store.old store.new }
    ensures without { IfOk result (λ node. Means store.new node (λ set. not (value_of store.old set b) && value_of store.old set a)) }
{
    let never = store.constant(false);
    let node = store.ite(b, never, a)?;
    Ok(node)
}

/// The sets on which the community is carried.
pub fn condition(store: &mut Store, carried: &Carried, community: u32) -> Result<NodeId, NoMemory>
    requires inside { AreNodesInside store.old carried.now }
    requires known { has store.old.universe community ≡ true }
    ensures grows { Grows store.old store.new }
    ensures condition { IfOk result (λ node. Means store.new node (λ set. has_in store.old carried.now set community)) }
{
    match node_of(carried.outs.as_slice(), community) {
        Some(node) => Ok(node),
        None => {
            let there = store.var(Community(community))?;
            let node = store.and(there, carried.rest)?;
            Ok(node)
        }
    }
}

/// The sets on which all of the communities are carried. The last comes first, so that each step puts
/// one node on top.
fn all_node(store: &mut Store, carried: &Carried, communities: &[u32]) -> Result<NodeId, NoMemory>
    requires inside { AreNodesInside store.old carried.now }
    requires known { AreWithin store.old.universe communities.now }
    ensures grows { Grows store.old store.new }
    ensures all { IfOk result (λ node. Means store.new node (λ set. list_all (has_in store.old carried.now set) communities.now)) }
{
    let mut all = store.constant(true);
    let mut place = communities.len();
    while place > 0 {
        place -= 1;
        let here = condition(store, carried, communities[place])?;
        all = store.and(here, all)?;
    }
    Ok(all)
}

/// What the lines of a list say: where one of them holds, and where the first that holds permits.
#[derive(Clone, Copy, Debug)]
pub struct Decision {
    pub holds: NodeId,
    pub permits: NodeId,
}

fn decision_of_line(
    store: &mut Store,
    carried: &Carried,
    line: &CommunityLine,
) -> Result<Decision, NoMemory>
    requires inside { AreNodesInside store.old carried.now }
    requires known { AreWithin store.old.universe line.now.comms }
    ensures grows { Grows store.old store.new }
    ensures decision { IfOk result (IsDecision store.old store.new carried.now (line.now ∷ [])) }
{
    let holds = all_node(store, carried, line.comms.as_slice())?;
    if line.permit {
        return Ok(Decision {
            holds,
            permits: holds,
        });
    }
    let permits = store.constant(false);
    Ok(Decision { holds, permits })
}

/// What lines say, if `first` is what the front ones say and `last` what the others say.
fn first_decides(store: &mut Store, first: &Decision, last: &Decision) -> Result<Decision, NoMemory>
    requires first_inside { IsDecisionInside store.old first.now }
    requires last_inside { IsDecisionInside store.old last.now }
    ensures grows { Grows store.old store.new }
    ensures joined { IfOk result (IsFirstDecision store.old store.new first.now last.now) }
{
    let holds = store.or(first.holds, last.holds)?;
    let permits = store.ite(first.holds, first.permits, last.permits)?;
    Ok(Decision { holds, permits })
}

/// What the lines say. Both halves are made first: so the work goes with the size of the diagrams, and
/// a large one is not made again for each line.
fn decision_of(
    store: &mut Store,
    carried: &Carried,
    lines: &[CommunityLine],
) -> Result<Decision, NoMemory>
    requires inside { AreNodesInside store.old carried.now }
    requires known { AllByRecursion (IsLineWithin store.old.universe) lines.now }
    ensures grows { Grows store.old store.new }
    ensures decision { IfOk result (IsDecision store.old store.new carried.now lines.now) }
{
    match lines {
        [] => {
            let never = store.constant(false);
            Ok(Decision {
                holds: never,
                permits: never,
            })
        }
        [line] => decision_of_line(store, carried, line),
        _ => {
            let (front, back) = lines.split_at(lines.len() / 2);
            let first = decision_of(store, carried, front)?;
            let last = decision_of(store, carried, back)?;
            let decision = first_decides(store, &first, &last)?;
            Ok(decision)
        }
    }
}

/// The sets on which the first line that holds permits.
fn answer_node(
    alloc: Global,
    store: &mut Store,
    carried: &Carried,
    exact: bool,
    lines: &[CommunityLine],
) -> Result<NodeId, NoMemory>
    requires inside { AreNodesInside store.old carried.now }
    requires known { AllByRecursion (IsLineWithin store.old.universe) lines.now }
    ensures grows { Grows store.old store.new }
    ensures answer { IfOk result (λ node. Means store.new node (λ set. first_line_decides (line_by store.old.universe (has_in store.old carried.now set) (value_of store.old set carried.now.others) exact) lines.now)) }
{
    if exact {
        return exact_answer(alloc, store, carried, lines);
    }
    let decision = decision_of(store, carried, lines)?;
    Ok(decision.permits)
}

/// The sets on which one of the lists permits.
fn lists_node(
    alloc: Global,
    store: &mut Store,
    carried: &Carried,
    exact: bool,
    lists: &[CommunityList],
) -> Result<NodeId, NoMemory>
    requires inside { AreNodesInside store.old carried.now }
    requires known { AreListsWithin store.old.universe lists.now }
    ensures grows { Grows store.old store.new }
    ensures lists { IfOk result (λ node. Means store.new node (λ set. list_any (list_by store.old.universe (has_in store.old carried.now set) (value_of store.old set carried.now.others) exact) lists.now)) }
{
    let mut any = store.constant(false);
    let mut place = lists.len();
    while place > 0 {
        place -= 1;
        let list = &lists[place];
        let here = answer_node(alloc, store, carried, exact, list.lines.as_slice())?;
        any = store.or(here, any)?;
    }
    Ok(any)
}

/// The sets on which the entry holds.
pub fn entry_node(
    alloc: Global,
    store: &mut Store,
    carried: &Carried,
    entry: &PlainEntry,
) -> Result<NodeId, NoMemory>
    requires inside { AreNodesInside store.old carried.now }
    requires known { IfSome entry.now.lists (AreListsWithin store.old.universe) }
    ensures grows { Grows store.old store.new }
    ensures entry { IfOk result (λ node. Means store.new node (λ set. entry_by store.old.universe (has_in store.old carried.now set) (value_of store.old set carried.now.others) entry.now)) }
{
    match &entry.lists {
        Some(lists) => lists_node(alloc, store, carried, entry.exact, lists.as_slice()),
        None => Ok(store.constant(true)),
    }
}
