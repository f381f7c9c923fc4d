//! The graph of a problem.

ghost use Rattle.std.specs.Prelude.{◌≡◌, ◌<◌, ◌↔◌, ◌^◌, ℕ, List, All, length, IfOk};
ghost use Rattle.base_kit.specs.Partition as partition;
ghost use Rattle.base_kit.specs.declared.act_graph.ActGraph.{ActGraph};
ghost use Rattle.srp_core.specs.Problem.{count, IsProblem};
ghost use Rattle.srp_core.specs.Quotient.{IsAdmissible, IsCoarsest};
ghost use Rattle.srp_core.specs.Starts.{AreColors, IsGraphOf};

use crate::srp::Srp;
use crate::starts::{Start, Starts};
use base_kit::{ActGraph, List, NoMemory};

// One color for each router: the number of its start.
fn colors(srp: &Srp) -> Result<Vec<u32>, NoMemory>
    ensures { IfOk result (λ colors. AreColors srp.now colors.items) }
{
    let mut starts = Starts::new(srp.alloc());
    let mut colors = Vec::new(srp.alloc());
    for router in 0..srp.count() {
        let start = Start::of(
            srp.lone()[router as usize],
            router,
            &srp.init()[router as usize],
        );
        let color = starts.number(start)?;
        colors.push(color as u32)?;
    }
    Ok(colors)
}

impl Srp {
    /// One color for each router. Lone routers have colors of their own. Two other routers have equal
    /// colors exactly if their initial routes are equal or both are none. With the problem's routers and
    /// edges they are the graph of the problem, which `graph` gives with a copy of the edges.
    pub fn colors(&self) -> Result<Vec<u32>, NoMemory>
        ensures colors { IfOk result (λ colors. AreColors self.now colors.items) }
        ensures total { IfOk result (λ colors. length colors.items ≡ count self.now) }
        ensures graph { IfOk result (λ colors. (graph : ActGraph) → graph.count ≡ count self.now → graph.colors ≡ colors.items → graph.edges ≡ self.now.edges → IsGraphOf self.now graph) }
        ensures coarsest { IfOk result (λ colors. (graph : ActGraph) → graph.count ≡ count self.now → graph.colors ≡ colors.items → graph.edges ≡ self.now.edges → (groups : List ℕ) → IsCoarsest self.now groups ↔ partition.IsCoarsestOn graph groups) }
    {
        // The count's contract says that this is a problem. The last two clauses depend on it.
        let _known = self.count();
        let colors = colors(self)?;
        Ok(colors)
    }

    /// The graph of the problem. Lone routers have colors of their own. Two other routers have equal
    /// colors exactly if their initial routes are equal or both are none. Its edges are those of the
    /// problem, in the same order. Its admissible partitions are those of the problem.
    pub fn graph(&self) -> Result<ActGraph, NoMemory>
        ensures graph { IfOk result (λ graph. IsGraphOf self.now graph) }
        ensures admissible { IfOk result (λ graph. (groups : List ℕ) → IsAdmissible self.now groups ↔ partition.IsAdmissibleOn graph groups) }
        ensures coarsest { IfOk result (λ graph. (groups : List ℕ) → IsCoarsest self.now groups ↔ partition.IsCoarsestOn graph groups) }
    {
        let colors = colors(self)?;
        let edges = Vec::from_slice(self.alloc(), self.edges())?;
        Ok(ActGraph {
            count: self.count(),
            colors: List::from_vec(colors),
            edges: List::from_vec(edges),
        })
    }
}
