//! Lists that are matched exactly.

ghost use Rattle.std.specs.Prelude.{◌≡◌, ◌<◌, length, map, IfOk, not, ◌&&◌, true};
ghost use Rattle.std.specs.List.{filter};
ghost use Rattle.base_kit.specs.Sets.{has};
ghost use Rattle.cfg_ast.specs.meaning.Lists.{first_line_decides};
ghost use Rattle.route_maps.specs.Within.{AreWithin};
ghost use Rattle.dd_core.specs.Sets.{value_of, Grows, Means};
ghost use Rattle.policy_dd.specs.Exact.{AreConditions, just_wanted};
ghost use Rattle.policy_dd.specs.Matches.{has_in, AreNodesInside, line_by};
ghost use Rattle.policy_dd.specs.Tables.{AllInside};

use crate::matches::{Carried, condition};
use crate::tables::{key_in, node_in};
use base_kit::{List, NoMemory};
use cfg_ast::CommunityLine;
use dd_core::{NodeId, Store, is_same};
use std::alloc::Global;

/// Lines by whether they name a community.
#[derive(Drop)]
struct Parted<'a> {
    named: Vec<&'a CommunityLine>,
    unnamed: Vec<&'a CommunityLine>,
}

fn part<'a>(
    alloc: Global,
    lines: &[&'a CommunityLine],
    community: u32,
) -> Result<Parted<'a>, NoMemory>
    ensures named { IfOk result (λ p. map (λ line. line.now) p.named.items ≡ filter (λ line. has line.comms community) (map (λ line. line.now) lines.now)) }
    ensures unnamed { IfOk result (λ p. map (λ line. line.now) p.unnamed.items ≡ filter (λ line. not (has line.comms community)) (map (λ line. line.now) lines.now)) }
{
    let mut named = Vec::new(alloc);
    let mut unnamed = Vec::new(alloc);
    for line in lines {
        if line.comms.has(community) {
            named.push(*line)?;
        } else {
            unnamed.push(*line)?;
        }
    }
    Ok(Parted { named, unnamed })
}

/// The sets on which each of the communities is carried.
fn conditions(
    alloc: Global,
    store: &mut Store,
    carried: &Carried,
    communities: &[u32],
) -> Result<List<(u32, NodeId)>, NoMemory>
    requires inside { AreNodesInside store.old carried.now }
    requires known { AreWithin store.old.universe communities.now }
    ensures grows { Grows store.old store.new }
    ensures conditions { IfOk result (AreConditions store.old store.new carried.now communities.now) }
{
    let mut cases = List::new(alloc);
    for community in communities {
        let node = condition(store, carried, *community)?;
        cases.push((*community, node))?;
    }
    Ok(cases)
}

fn where_permitted(store: &Store, none: NodeId, line: &CommunityLine) -> NodeId
    requires { none < length store.now.nodes }
    ensures { Means store.now result (λ set. value_of store.now set none && line.now.permit) }
{
    if line.permit {
        return none;
    }
    store.constant(false)
}

/// The sets for which some line names exactly the carried communities, and the first such line permits.
/// `none` says that no other community is carried. The lines are divided at each community, so that they
/// share what they have in common.
fn answer_by_communities(
    alloc: Global,
    store: &mut Store,
    conditions: &[(u32, NodeId)],
    none: NodeId,
    lines: &[&CommunityLine],
) -> Result<NodeId, NoMemory>
    requires inside { AllInside store.old conditions.now }
    requires none { none < length store.old.nodes }
    ensures grows { Grows store.old store.new }
    ensures answer { IfOk result (λ node. Means store.new node (λ set. first_line_decides (λ line. just_wanted store.old set none conditions.now line.comms) (map (λ line. line.now) lines.now))) }
{
    if lines.is_empty() {
        return Ok(store.constant(false));
    }
    match conditions {
        [] => Ok(where_permitted(store, none, lines[0])),
        [case, rest @ ..] => {
            let parted = part(alloc, lines, key_in(case))?;
            let high = answer_by_communities(alloc, store, rest, none, parted.named.as_slice())?;
            let low = answer_by_communities(alloc, store, rest, none, parted.unnamed.as_slice())?;
            let node = store.ite(node_in(case), high, low)?;
            Ok(node)
        }
    }
}

fn all_lines<'a>(
    alloc: Global,
    lines: &'a [CommunityLine],
) -> Result<Vec<&'a CommunityLine>, NoMemory>
    ensures { IfOk result (λ v. map (λ line. line.now) v.items ≡ lines.now) }
{
    let mut all = Vec::new(alloc);
    for line in lines {
        all.push(line)?;
    }
    Ok(all)
}

/// The sets for which some line names exactly the carried communities, and the first such line permits.
/// If other communities are always carried, there is no such line.
pub fn exact_answer(
    alloc: Global,
    store: &mut Store,
    carried: &Carried,
    lines: &[CommunityLine],
) -> Result<NodeId, NoMemory>
    requires inside { AreNodesInside store.old carried.now }
    ensures grows { Grows store.old store.new }
    ensures answer { IfOk result (λ node. Means store.new node (λ set. first_line_decides (line_by store.old.universe (has_in store.old carried.now set) (value_of store.old set carried.now.others) true) lines.now)) }
{
    if is_same(store, carried.others, store.constant(true)) {
        return Ok(store.constant(false));
    }
    let universe = store.universe().copy()?;
    let conditions = conditions(alloc, store, carried, universe.as_slice())?;
    let none = store.not(carried.others)?;
    let lines = all_lines(alloc, lines)?;
    let node = answer_by_communities(alloc, store, conditions.as_slice(), none, lines.as_slice())?;
    Ok(node)
}
