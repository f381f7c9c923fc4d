//! The problem of one class after the other.

ghost use Rattle.std.specs.Prelude.{IfOk, IfSome, Contains};
ghost use Rattle.cfg_ast.specs.meaning.Classes.{classes_of};
ghost use Rattle.driver.specs.Steps.{IsSharedOf};
ghost use Rattle.srp_build.specs.Built.{IsBuiltFor};
ghost use Rattle.ask_answers.specs.Atlases.{IsBuiltForSome, IsKnownFor};

use base_kit::{NoMemory, Protocol};
use cfg_ast::DestClass;
use cfg_check::Checked;
use driver::Shared;
use srp_build::laws::acts_stay_within;
use srp_build::restart;
use srp_core::Srp;
use srp_without::Failures;
use std::alloc::Global;

/// The problem of a class, and what is known of its failures.
#[derive(Drop)]
pub struct KnownProblem {
    pub whole: Srp,
    pub failures: Failures,
}

// The problem of a class. In OSPF it is made from that of a class before it, if one is given: only what the routers
// originate is made anew.
fn problem_after(
    alloc: Global,
    checked: &Checked,
    shared: &mut Shared,
    class: &DestClass,
    before: Option<Srp>,
) -> Result<Srp, NoMemory>
    requires shared { IsSharedOf checked.now.network shared.old }
    requires class { Contains (classes_of checked.now.network) class.now }
    requires before { IfSome before (IsBuiltForSome checked.now.network) }
    ensures shared { IsSharedOf checked.now.network shared.new }
    ensures built { IfOk result (IsBuiltFor checked.now.network class.now) }
{
    if let Some(mut problem) = before {
        if problem.protocol() == Protocol::Ospf {
            restart(alloc, checked, class, &mut problem)?;
            return Ok(problem);
        }
    }
    shared.problem(alloc, checked, class)
}

/// The problem of a class, with what is known of its failures. The problem of a class before it may be given: then less
/// is made anew.
///
/// # Errors
/// Out of memory.
pub(crate) fn known_after(
    alloc: Global,
    checked: &Checked,
    shared: &mut Shared,
    class: &DestClass,
    before: Option<Srp>,
) -> Result<KnownProblem, NoMemory>
    requires shared { IsSharedOf checked.now.network shared.old }
    requires class { Contains (classes_of checked.now.network) class.now }
    requires before { IfSome before (IsBuiltForSome checked.now.network) }
    ensures shared { IsSharedOf checked.now.network shared.new }
    ensures known { IfOk result (IsKnownFor checked.now.network class.now) }
{
    acts_stay_within();
    let whole = problem_after(alloc, checked, shared, class, before)?;
    let failures = Failures::of(alloc, &mut shared.store, &whole)?;
    Ok(KnownProblem { whole, failures })
}
