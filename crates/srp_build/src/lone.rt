//! Routers on which several preferences can apply.

ghost use Rattle.std.specs.Prelude.{◌≡◌, ◌<◌, true, false, All, IfOk, IfSome, length, map};
ghost use Rattle.base_kit.specs.declared.act_graph.Edge.{Edge as AnEdge};
ghost use Rattle.srp_build.specs.Lone.{Differ, Agree, IsNextMark, AreLoneMarks, AreLone};

use crate::acts::BgpAct;
use base_kit::{Edge, List, NoMemory};
use dd_core::Store;
use policy_dd::several;
use std::alloc::Global;

/// What is known of a router: the act of its first edge, and whether it accepts routes with different
/// preferences over this edge and some edge, which may be the same one.
#[derive(Clone, Copy, Debug, PartialEq, Eq)]
pub struct Mark {
    pub first: Option<u32>,
    pub lone: bool,
}

fn differ(store: &Store, acts: &[BgpAct], a: u32, b: u32) -> bool
    requires a_inside { a < length acts.now }
    requires b_inside { b < length acts.now }
    ensures differ { result ≡ true → Differ store.now acts.now a b }
    ensures agree { result ≡ false → Agree store.now acts.now a b }
{
    several(
        store,
        &acts[a as usize].function,
        &acts[b as usize].function,
    )
}

// The mark of a router after one more of its edges.
fn next_mark(store: &Store, acts: &[BgpAct], mark: Mark, act: u32) -> Mark
    requires first_inside { IfSome mark.first (λ first. first < length acts.now) }
    requires act_inside { act < length acts.now }
    ensures { IsNextMark store.now acts.now mark act result }
{
    let Some(first) = mark.first else {
        let several = differ(store, acts, act, act);
        return Mark {
            first: Some(act),
            lone: several,
        };
    };
    if first == act {
        return mark;
    }
    if mark.lone {
        return mark;
    }
    let lone = differ(store, acts, first, act);
    Mark {
        first: Some(first),
        lone,
    }
}

fn marks_of(
    alloc: Global,
    store: &Store,
    acts: &[BgpAct],
    count: usize,
    edges: &[Edge],
) -> Result<Vec<Mark>, NoMemory>
    requires importers { All (λ (edge : AnEdge). edge.importer < count) edges.now }
    requires acts { All (λ (edge : AnEdge). edge.act < length acts.now) edges.now }
    ensures { IfOk result (λ marks. AreLoneMarks store.now acts.now count edges.now marks.items) }
{
    let none = Mark {
        first: None,
        lone: false,
    };
    let mut marks = vec![in alloc; none; count]?;
    for edge in edges {
        let router = edge.importer as usize;
        marks[router] = next_mark(store, acts, marks[router], edge.act);
    }
    Ok(marks)
}

fn read_marks(alloc: Global, marks: &[Mark]) -> Result<List<bool>, NoMemory>
    ensures { IfOk result (λ lone. lone ≡ map (λ (mark : Mark). mark.lone) marks.now) }
{
    let mut lone = List::new(alloc);
    for mark in marks {
        lone.push(mark.lone)?;
    }
    Ok(lone)
}

/// For each router, whether it accepts routes with different preferences. It is enough to compare each
/// edge with the first one: the law `FirstDecidesLone` (`specs/Laws.antt`) says so.
pub fn lone_of(
    alloc: Global,
    store: &Store,
    acts: &[BgpAct],
    count: usize,
    edges: &[Edge],
) -> Result<List<bool>, NoMemory>
    requires importers { All (λ (edge : AnEdge). edge.importer < count) edges.now }
    requires acts { All (λ (edge : AnEdge). edge.act < length acts.now) edges.now }
    ensures { IfOk result (AreLone store.now acts.now count edges.now) }
{
    let marks = marks_of(alloc, store, acts, count, edges)?;
    let lone = read_marks(alloc, &marks)?;
    Ok(lone)
}
