//! The network of the groups of a problem.

ghost use Rattle.std.specs.Prelude.{◌≡◌, Contains};
ghost use Rattle.base_kit.specs.Prefixes.{Prefix};
ghost use Rattle.cfg_ast.specs.meaning.Classes.{classes_of};
ghost use Rattle.srp_core.specs.ProblemOf.{IsProblemOf};
ghost use Rattle.driver.specs.Steps.{IsEmittedOf};

use crate::grouping::grouped;
use cfg_ast::DestClass;
use cfg_check::Checked;
use config_emit::{EmitRefusal, Emitted, emit};
use srp_core::Srp;
use std::alloc::Global;

/// The network of the groups of a problem of a class.
///
/// # Errors
/// `PoolOverlap` exactly if a prefix of the class meets the addresses of the links. Out of memory.
pub fn emitted_of(
    alloc: Global,
    checked: &Checked,
    class: &DestClass,
    problem: Srp,
) -> Result<Emitted, EmitRefusal>
    requires class { Contains (classes_of checked.now.network) class.now }
    requires problem { (p : Prefix) → Contains class.now.prefixes p → IsProblemOf checked.now.network p problem }
    ensures { IsEmittedOf checked.now.network class.now problem result }
{
    let grouping = grouped(alloc, problem)?;
    let _known = grouping.groups.groups();
    emit(
        alloc,
        checked,
        class,
        &grouping.problem,
        &grouping.groups,
        &grouping.quotient,
    )
}
