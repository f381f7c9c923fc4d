//! The links between the groups of a problem.

ghost use Rattle.std.specs.Prelude.{◌≡◌, ℕ, length, IfOk};
ghost use Rattle.base_kit.specs.Partition.{IsNumbered};
ghost use Rattle.abstract_net.specs.Links.{quotient_links};
ghost use Rattle.srp_core.specs.Problem.{count};

use abstract_net::{Quotient, quotient_over};
use base_kit::NoMemory;
use refine_partition::Partition;
use srp_core::Srp;
use std::alloc::Global;

/// The links between the groups of a partition of the problem's routers.
///
/// # Errors
/// Out of memory.
pub fn links_of_groups(alloc: Global, srp: &Srp, groups: &Partition) -> Result<Quotient, NoMemory>
    requires { length groups.now ≡ count srp.now }
    ensures { IfOk result (λ q. (count : ℕ) → IsNumbered groups.now count → q.links ≡ quotient_links srp.now.edges groups.now count) }
{
    // The contract of `count` says that both ends of each edge are routers.
    let _known = srp.count();
    quotient_over(alloc, srp.edges(), groups)
}
