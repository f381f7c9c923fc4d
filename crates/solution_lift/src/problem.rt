//! The problem of the groups.

ghost use Rattle.std.specs.Prelude.{◌≡◌, ◌<◌, ◌^◌, ℕ, IfOk, length};
ghost use Rattle.base_kit.specs.Partition.{IsNumbered};
ghost use Rattle.abstract_net.specs.Links.{quotient_links};
ghost use Rattle.srp_core.specs.Quotient.{IsAdmissible};
ghost use Rattle.srp_quotient.specs.Groups.{small_of};

use crate::edges::edges_of;
use crate::tables::{first_members, marks_of, names_of, numbers_of, starts_of};
use abstract_net::Quotient;
use abstract_net::laws::quotient_carries;
use base_kit::NoMemory;
use refine_partition::Partition;
use srp_core::{Srp, acts_copy};
use srp_quotient::laws::quotient_is_problem;
use std::alloc::Global;

/// The problem of the groups of an admissible partition, whose routers are the groups in order: each
/// has the name of its first member, the initial route and the mark of its members and, where it is
/// used, the first AS number among theirs. Its edges are both directions of the links between groups:
/// a problem has fewer than 2^32 edges, and a link at most two.
///
/// # Errors
/// Out of memory.
pub fn quotient_srp(alloc: Global, srp: &Srp, p: &Partition, q: &Quotient) -> Result<Srp, NoMemory>
    requires groups { IsAdmissible srp.now p.now }
    requires links { (count : ℕ) → IsNumbered p.now count → q.now.links ≡ quotient_links srp.now.edges p.now count }
    requires few { length q.now.links < 2 ^ 31 }
    ensures { IfOk result (λ small. (count : ℕ) → IsNumbered p.now count → small ≡ small_of srp.now p.now count) }
{
    quotient_carries();
    quotient_is_problem();
    let links = q.links.as_slice();
    let _known = srp.count();
    let count = p.groups();
    let firsts = first_members(alloc, p, count)?;
    let names = names_of(alloc, srp.names().as_slice(), &firsts)?;
    let numbers = numbers_of(alloc, srp, p, count, links)?;
    let init = starts_of(alloc, srp, &firsts)?;
    let lone = marks_of(alloc, srp, &firsts)?;
    let acts = acts_copy(alloc, srp.acts())?;
    let edges = edges_of(alloc, srp.protocol(), srp.edges(), links)?;
    Ok(Srp::new(
        alloc,
        srp.protocol(),
        names,
        numbers,
        init,
        lone,
        acts,
        edges,
    ))
}
