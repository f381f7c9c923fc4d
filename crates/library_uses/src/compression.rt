//! Calls that make the network of the groups.

ghost use Rattle.std.specs.Prelude.{◌≡◌, ◌<◌, ◌^◌, ℕ, Contains, IfOk, length};
ghost use Rattle.abstract_net.specs.Links.{quotient_links};
ghost use Rattle.base_kit.specs.Partition.{IsNumbered};
ghost use Rattle.base_kit.specs.Prefixes.{Prefix};
ghost use Rattle.cfg_ast.specs.meaning.Classes.{classes_of};
ghost use Rattle.config_emit.specs.Answers.{Emits};
ghost use Rattle.srp_core.specs.ProblemOf.{IsProblemOf};
ghost use Rattle.srp_core.specs.Quotient.{IsAdmissible};
ghost use Rattle.srp_quotient.specs.Groups.{small_of};

use abstract_net::{Quotient, quotient};
use base_kit::{ActGraph, NoMemory};
use cfg_ast::DestClass;
use cfg_check::Checked;
use config_emit::{EmitRefusal, Emitted, emit};
use refine_partition::Partition;
use solution_lift::quotient_srp;
use srp_core::Srp;
use std::alloc::Global;

/// The links between groups.
pub fn links_between(alloc: Global, graph: &ActGraph, p: &Partition) -> Result<Quotient, NoMemory>
    requires { length p.now ≡ graph.now.count }
    ensures { IfOk result (λ q. (groups : ℕ) → IsNumbered p.now groups → q.links ≡ quotient_links graph.now.edges p.now groups) }
{
    quotient(alloc, graph, p)
}

/// The problem of the groups.
pub fn problem_of_groups(
    alloc: Global,
    srp: &Srp,
    p: &Partition,
    q: &Quotient,
) -> Result<Srp, NoMemory>
    requires groups { IsAdmissible srp.now p.now }
    requires links { (groups : ℕ) → IsNumbered p.now groups → q.now.links ≡ quotient_links srp.now.edges p.now groups }
    requires few { length q.now.links < 2 ^ 31 }
    ensures { IfOk result (λ small. (groups : ℕ) → IsNumbered p.now groups → small ≡ small_of srp.now p.now groups) }
{
    quotient_srp(alloc, srp, p, q)
}

/// The network of the groups, as configurations.
pub fn network_of_groups(
    alloc: Global,
    net: &Checked,
    class: &DestClass,
    srp: &Srp,
    p: &Partition,
    q: &Quotient,
) -> Result<Emitted, EmitRefusal>
    requires class { Contains (classes_of net.now.network) class.now }
    requires problem { (x : Prefix) → Contains class.now.prefixes x → IsProblemOf net.now.network x srp.now }
    requires groups { IsAdmissible srp.now p.now }
    requires links { (groups : ℕ) → IsNumbered p.now groups → q.now.links ≡ quotient_links srp.now.edges p.now groups }
    ensures { (groups : ℕ) → IsNumbered p.now groups → Emits result (record { network = net.now.network; class = class.now; problem = srp.now; groups = p.now; count = groups; links = q.now.links }) }
{
    emit(alloc, net, class, srp, p, q)
}
