//! Edges between groups, in the order of their groups.

ghost use Rattle.std.specs.Prelude.{◌≡◌, ◌<◌, ◌^◌, true, All, IfOk, OnOk, length};
ghost use Rattle.abstract_net.specs.Early.{IsPreceded, PutsEarly, AreEarly, AreGroupSteps};
ghost use Rattle.abstract_net.specs.GroupSteps.{step_of, same_kind};

use crate::by_group::{push_some, sort_by_groups};
use base_kit::{Edge, NoMemory};
use refine_partition::Partition;
use std::alloc::Global;

/// An edge between two groups, `low` before `high`: its place, its act and link, and whether it leads
/// into the lower group.
#[derive(Clone, Copy, Debug, PartialEq, Eq)]
pub struct Step {
    pub low: u32,
    pub high: u32,
    pub into_low: bool,
    pub act: u32,
    pub link: u32,
    pub edge: u32,
}

fn step_of(p: &Partition, place: u32, edge: &Edge) -> Option<Step>
    requires importer { edge.now.importer < length p.now }
    requires exporter { edge.now.exporter < length p.now }
    ensures { result ≡ step_of p.now place edge.now }
{
    let importer = p.group_of(edge.importer);
    let exporter = p.group_of(edge.exporter);
    if importer == exporter {
        return None;
    }
    Some(Step {
        low: importer.min(exporter),
        high: importer.max(exporter),
        into_low: importer < exporter,
        act: edge.act,
        link: edge.link,
        edge: place,
    })
}

fn is_same_kind(a: &Step, b: &Step) -> bool
    ensures { result ≡ same_kind a.now b.now }
{
    a.low == b.low && a.high == b.high && a.into_low == b.into_low && a.act == b.act
}

// Whether one of the steps is of the kind of this one, on a link that is no higher.
fn has_earlier(steps: &[Step], step: &Step) -> bool
    ensures { result ≡ true → IsPreceded steps.now step.now }
{
    for place in 0..steps.len() {
        if is_same_kind(&steps[place], step) && steps[place].link <= step.link {
            return true;
        }
    }
    false
}

// Up to so many steps are compared with the next one.
const FEW: usize = 64;

// Puts a step last, unless one of its kind stands there, on a link that is no higher.
fn push_early(steps: &mut Vec<Step>, step: Option<Step>) -> Result<(), NoMemory>
    ensures { OnOk result (PutsEarly steps.old.items steps.new.items step) }
{
    if let Some(step) = step {
        if has_earlier(steps, &step) {
            return Ok(());
        }
        steps.push(step)?;
    }
    Ok(())
}

// The steps of the edges, with the first of each kind by links. As long as they are few, steps are left
// out that come after another of their kind.
fn early_steps(alloc: Global, edges: &[Edge], p: &Partition) -> Result<Vec<Step>, NoMemory>
    requires few { length edges.now < 2 ^ 32 }
    requires importers { All (λ e. e.importer < length p.now) edges.now }
    requires exporters { All (λ e. e.exporter < length p.now) edges.now }
    ensures { IfOk result (λ steps. AreEarly edges.now p.now (length edges.now) steps.items) }
{
    let mut steps = Vec::new(alloc);
    let mut start = 0;
    while start < edges.len() && steps.len() <= FEW {
        push_early(&mut steps, step_of(p, start as u32, &edges[start]))?;
        start += 1;
    }
    steps.reserve(edges.len() - start)?;
    for place in start..edges.len() {
        push_some(&mut steps, step_of(p, place as u32, &edges[place]));
    }
    Ok(steps)
}

/// The edges between groups, by the lower group, then the higher group. Between two groups stands the
/// first edge by links of each act in each direction, and other edges may stand too.
pub fn sorted_steps(alloc: Global, edges: &[Edge], p: &Partition) -> Result<Vec<Step>, NoMemory>
    requires few { length edges.now < 2 ^ 32 }
    requires importers { All (λ e. e.importer < length p.now) edges.now }
    requires exporters { All (λ e. e.exporter < length p.now) edges.now }
    ensures { IfOk result (λ steps. AreGroupSteps edges.now p.now steps.items) }
{
    let mut steps = early_steps(alloc, edges, p)?;
    sort_by_groups(alloc, &mut steps)?;
    Ok(steps)
}
