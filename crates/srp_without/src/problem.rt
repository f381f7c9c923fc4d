//! The problem that is left.

ghost use Rattle.std.specs.Prelude.{IfOk};
ghost use Rattle.srp_core.specs.Without.{marked_down, IsWithout};
ghost use Rattle.srp_without.specs.Accepting.{Serves};

use crate::acts::Failures;
use crate::left::{edges_left, starts_left};
use crate::marks::marks_left;
use base_kit::{List, NoMemory};
use srp_core::{Srp, acts_copy, names_copy};
use std::alloc::Global;

/// The problem that is left where the marked routers, by place, and the marked links, by number, are down. What
/// stands behind the end of the marks is not down.
///
/// # Errors
/// Out of memory.
pub fn without(
    alloc: Global,
    problem: &Srp,
    failures: &Failures,
    routers: &[bool],
    links: &[bool],
) -> Result<Srp, NoMemory>
    requires { Serves problem.now failures.now }
    ensures { IfOk result (IsWithout problem.now (marked_down routers.now links.now)) }
{
    let _known = problem.count();
    let edges = edges_left(alloc, problem.edges(), routers, links)?;
    let init = starts_left(alloc, problem.init(), routers)?;
    let lone = marks_left(alloc, problem, failures, &edges)?;
    let names = names_copy(alloc, problem.names().as_slice())?;
    let numbers = Vec::from_slice(alloc, problem.numbers())?;
    let acts = acts_copy(alloc, problem.acts())?;
    let other = Srp::new(
        alloc,
        problem.protocol(),
        names,
        List::from_vec(numbers),
        init,
        lone,
        acts,
        List::from_vec(edges),
    );
    let _also_known = other.count();
    Ok(other)
}
