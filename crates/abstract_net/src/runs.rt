//! Steps between the same two groups, put together as their links.

ghost use Rattle.std.specs.Prelude.{◌≡◌, ◌++◌, [], ◌∷◌, List, IfOk, IfSome, OnOk, option_map, slice_get, nat_eq};
ghost use Rattle.std.specs.HashSet as set;
ghost use Rattle.std.specs.List.{cons_option};
ghost use Rattle.abstract_net.specs.Links.{joined_sides};
ghost use Rattle.abstract_net.specs.GroupSteps.{link_of, sorted_by, first_new, edges_into, links_of_run, links_of_steps};
ghost use Rattle.abstract_net.specs.Least.{is_of_other_act, lower_of};

use crate::qlink::QLink;
use crate::run_ends::{Common, run_end};
use crate::steps::Step;
use base_kit::{List, NoMemory};
use std::alloc::Global;
use std::collections::HashSet;

// Puts the edge of a step last, if its act was not met yet.
fn push_new(met: &mut HashSet<u32>, edges: &mut Vec<u32>, step: &Step) -> Result<(), NoMemory>
    ensures { OnOk result ((later : List Step) → edges.new.items ++ first_new (λ act. set.contains nat_eq met.new act) later ≡ edges.old.items ++ first_new (λ act. set.contains nat_eq met.old act) (step.now ∷ later)) }
{
    let is_new = met.insert(step.act)?;
    if is_new {
        edges.push(step.edge)?;
    }
    Ok(())
}

// The first edges of the different acts of one direction, in a run by links.
fn first_edges(alloc: Global, run: &[Step], into_low: bool) -> Result<Vec<u32>, NoMemory>
    ensures { IfOk result (λ edges. edges.items ≡ edges_into into_low run.now) }
{
    let mut met: HashSet<u32> = HashSet::new(alloc);
    let mut edges = Vec::new(alloc);
    for step in run {
        if step.into_low == into_low {
            push_new(&mut met, &mut edges, step)?;
        }
    }
    Ok(edges)
}

fn edge_at(edges: &[u32], place: usize) -> Option<u32>
    ensures { result ≡ slice_get edges.now place }
{
    edges.get(place).copied()
}

// Puts the links of two groups last, each with the next edge of both directions.
fn push_joined(
    links: &mut List<QLink>,
    low: u32,
    high: u32,
    to_low: &[u32],
    to_high: &[u32],
) -> Result<(), NoMemory>
    ensures { OnOk result (links.new ≡ links.old ++ joined_sides low high to_low.now to_high.now) }
{
    for place in 0..to_low.len().max(to_high.len()) {
        links.push(QLink {
            low,
            high,
            to_low: edge_at(to_low, place),
            to_high: edge_at(to_high, place),
        })?;
    }
    Ok(())
}

fn is_of_other_act(least: Option<Step>, step: &Step) -> bool
    ensures { result ≡ is_of_other_act least step.now }
{
    match least {
        Some(least) => least.act != step.act,
        None => false,
    }
}

// The one of the two steps on the lower link, the first on the same link.
fn lower_of(least: Option<Step>, step: &Step) -> Step
    ensures { result ≡ lower_of least step.now }
{
    match least {
        Some(least) => { if step.link < least.link { *step } else { least } }
        None => *step,
    }
}

fn edge_of(step: Option<Step>) -> Option<u32>
    ensures { result ≡ option_map (λ (step : Step). step.edge) step }
{
    match step {
        Some(step) => Some(step.edge),
        None => None,
    }
}

// The first edge by links of the act of a direction, if the direction has no other act.
fn only_edge(run: &[Step], into_low: bool) -> Option<Option<u32>>
    ensures { IfSome result (λ edge. edges_into into_low (sorted_by link_of run.now) ≡ cons_option edge []) }
{
    let mut least = None;
    for step in run {
        if step.into_low == into_low {
            if is_of_other_act(least, step) {
                return None;
            }
            least = Some(lower_of(least, step));
        }
    }
    Some(edge_of(least))
}

// The link of a run with at most one act in each direction. Most runs are of this form, and need no table.
fn single_link(run: &[Step]) -> Option<QLink>
    ensures { IfSome result (λ link. links_of_run run.now ≡ link ∷ []) }
{
    let first = run.first()?;
    let to_low = only_edge(run, true)?;
    let to_high = only_edge(run, false)?;
    if to_low.is_none() && to_high.is_none() {
        return None;
    }
    Some(QLink {
        low: first.low,
        high: first.high,
        to_low,
        to_high,
    })
}

fn sort_by_link(steps: &mut Vec<Step>) -> Result<(), NoMemory>
    ensures { IfOk result (λ _. steps.new.items ≡ sorted_by link_of steps.old.items) }
{
    steps.sort_by_key(|step| step.link)?;
    Ok(())
}

fn sorted_run(alloc: Global, run: &[Step]) -> Result<Vec<Step>, NoMemory>
    ensures { IfOk result (λ steps. steps.items ≡ sorted_by link_of run.now) }
{
    let mut steps = Vec::with_capacity(alloc, run.len())?;
    steps.extend_from_slice(run)?;
    sort_by_link(&mut steps)?;
    Ok(steps)
}

fn push_run(alloc: Global, links: &mut List<QLink>, run: &[Step]) -> Result<(), NoMemory>
    ensures { OnOk result (links.new ≡ links.old ++ links_of_run run.now) }
{
    if let Some(link) = single_link(run) {
        return links.push(link);
    }
    let Some(first) = run.first() else {
        return Ok(());
    };
    let steps = sorted_run(alloc, run)?;
    let to_low = first_edges(alloc, &steps, true)?;
    let to_high = first_edges(alloc, &steps, false)?;
    push_joined(links, first.low, first.high, &to_low, &to_high)
}

/// The links of each run of steps between the same two groups.
pub fn links_of(alloc: Global, steps: &[Step]) -> Result<List<QLink>, NoMemory>
    ensures { IfOk result (λ links. links ≡ links_of_steps steps.now) }
{
    let mut links = List::new(alloc);
    let mut start = 0;
    while start < steps.len() {
        let end = run_end(Common::BothGroups, steps, start);
        push_run(alloc, &mut links, &steps[start..end])?;
        start = end;
    }
    Ok(links)
}
