//! The groups of a problem, and the links between them.

ghost use Rattle.std.specs.Prelude.{◌≡◌, ◌<◌, IfOk};
ghost use Rattle.srp_core.specs.Quotient.{IsCoarsest};
ghost use Rattle.driver.specs.Steps.{AreExportsOf, IsGroupingOf};

use abstract_net::Quotient;
use base_kit::{NoMemory, Steps};
use refine_partition::{Exports, GraphView, Partition, coarsest_by, exports_of};
use srp_core::Srp;
use srp_quotient::links_of_groups;
use std::alloc::Global;
use std::marker::Brand;
use std::sync::ledger::{Blank, Ledger};

/// A problem, its groups, and the links between them.
#[derive(Drop)]
pub struct Grouping {
    pub problem: Srp,
    pub groups: Partition,
    pub quotient: Quotient,
}

/// The index of a problem's edges by their exporters. Problems with the same edges can share it.
///
/// # Errors
/// Out of memory.
pub fn exports_of_problem(alloc: Global, problem: &Srp) -> Result<Exports, NoMemory>
    ensures { IfOk result (AreExportsOf problem.now) }
{
    // The contract of `count` says that the exporters of the edges are routers.
    let routers = problem.count();
    let exports = exports_of(alloc, routers, problem.edges())?;
    Ok(exports)
}

// The coarsest admissible partition, by turns that this ledger counts. The edges stay in the problem.
fn counted<L: Ledger>(
    alloc: Global,
    problem: &Srp,
    exports: &Exports,
    blank: Blank,
) -> Result<Partition, NoMemory>
    requires exports { AreExportsOf problem.now exports.now }
    requires name { blank.name ≡ L.name }
    requires parts { blank.parts ≡ L.parts }
    requires some { 0 < L.parts }
    ensures { IfOk result (λ groups. IsCoarsest problem.now groups) }
{
    let colors = problem.colors()?;
    let _known = problem.count();
    let graph = GraphView::over(&colors, problem.edges());
    let mut turns = Steps::<L>::new(blank);
    let partition = coarsest_by(alloc, &graph, exports, &mut turns)?;
    Ok(partition)
}

/// The coarsest admissible partition of a problem, whose edges have this index.
///
/// # Errors
/// Out of memory.
pub fn coarsest_by_exports(
    alloc: Global,
    problem: &Srp,
    exports: &Exports,
) -> Result<Partition, NoMemory>
    requires { AreExportsOf problem.now exports.now }
    ensures { IfOk result (λ groups. IsCoarsest problem.now groups) }
{
    counted::<Brand>(alloc, problem, exports, Blank::new(1))
}

/// The coarsest admissible partition of a problem.
///
/// # Errors
/// Out of memory.
pub fn coarsest_of(alloc: Global, problem: &Srp) -> Result<Partition, NoMemory>
    ensures { IfOk result (λ groups. IsCoarsest problem.now groups) }
{
    let exports = exports_of_problem(alloc, problem)?;
    coarsest_by_exports(alloc, problem, &exports)
}

/// A problem with its coarsest admissible partition and the links between the groups.
///
/// # Errors
/// Out of memory.
pub fn grouped(alloc: Global, problem: Srp) -> Result<Grouping, NoMemory>
    ensures { IfOk result (IsGroupingOf problem) }
{
    let groups = coarsest_of(alloc, &problem)?;
    let quotient = links_of_groups(alloc, &problem, &groups)?;
    Ok(Grouping {
        problem,
        groups,
        quotient,
    })
}
