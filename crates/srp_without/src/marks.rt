//! The marks of lone routers, from the edges that are left.

ghost use Rattle.std.specs.Prelude.{◌≡◌, ℕ, ◌<◌, All, IfOk, Contains, length, map};
ghost use Rattle.base_kit.specs.declared.act_graph.Edge.{Edge as AnEdge};
ghost use Rattle.srp_core.specs.declared.route.Act.{Act};
ghost use Rattle.srp_core.specs.Problem.{IsProblem};
ghost use Rattle.srp_without.specs.Accepting.{is_several, AreOfActs, AreMet, Serves, AreMarksOf};

use crate::accepted::Accepted;
use crate::acts::{Failures, has_mark};
use base_kit::{Edge, List, NoMemory};
use srp_core::Srp;
use std::alloc::Global;

// What each router accepts over the edges.
fn met_by(
    alloc: Global,
    accepted: &[Accepted],
    count: usize,
    edges: &[Edge],
) -> Result<Vec<Accepted>, NoMemory>
    requires importers { All (λ (edge : AnEdge). edge.importer < count) edges.now }
    requires acts { All (λ (edge : AnEdge). edge.act < length accepted.now) edges.now }
    ensures { IfOk result (λ met. (acts : List Act) → AreOfActs acts accepted.now → AreMet acts count edges.now met.items) }
{
    let mut met = vec![in alloc; Accepted::Nothing; count]?;
    for edge in edges {
        let router = edge.importer as usize;
        met[router] = met[router].or(accepted[edge.act as usize]);
    }
    Ok(met)
}

fn marks_of(alloc: Global, met: &[Accepted]) -> Result<List<bool>, NoMemory>
    ensures { IfOk result (λ marks. marks ≡ map is_several met.now) }
{
    let mut marks = List::new(alloc);
    for accepted in met {
        marks.push(accepted.is_several())?;
    }
    Ok(marks)
}

/// The marks of the routers that accept two preferences over these edges of the problem.
pub fn marks_left(
    alloc: Global,
    problem: &Srp,
    failures: &Failures,
    edges: &[Edge],
) -> Result<List<bool>, NoMemory>
    requires serves { Serves problem.now failures.now }
    requires edges { (edge : AnEdge) → Contains edges.now edge → Contains problem.now.edges edge }
    ensures { IfOk result (AreMarksOf problem.now edges.now) }
{
    let count = problem.count() as usize;
    if !has_mark(problem.lone()) {
        let none = Vec::from_slice(alloc, problem.lone())?;
        return Ok(List::from_vec(none));
    }
    let met = met_by(alloc, failures.accepted(), count, edges)?;
    let marks = marks_of(alloc, &met)?;
    Ok(marks)
}
