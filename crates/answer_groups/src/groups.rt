//! The command `groups`.

ghost use Rattle.std.specs.Prelude.{◌≡◌, IfOk, Contains};
ghost use Rattle.cfg_ast.specs.meaning.Classes.{classes_of};
ghost use Rattle.answer_groups.specs.GroupLines.{AreGroupLines, IsGroupsOf};
ghost use Rattle.answer_kit.specs.Replies.{Answers};
ghost use Rattle.srp_build.specs.Built.{IsBuiltFor};

use answer_kit::Reply;
use base_kit::NoMemory;
use cfg_ast::DestClass;
use cfg_check::Checked;
use driver::{coarsest_of, problem_of_class};
use group_report::group_lines;
use srp_core::Srp;
use std::alloc::Global;

// The lines of the groups of a class.
fn lines_of_class(
    alloc: Global,
    checked: &Checked,
    class: &DestClass,
    problem: &Srp,
) -> Result<Vec<u8>, NoMemory>
    requires { IsBuiltFor checked.now.network class.now problem.now }
    ensures { IfOk result (λ bytes. AreGroupLines checked.now.network class.now bytes.items) }
{
    let partition = coarsest_of(alloc, problem)?;
    let bytes = group_lines(alloc, problem, &partition)?;
    Ok(bytes)
}

/// The groups of a class, whose problem this is.
pub fn answer_of(alloc: Global, checked: &Checked, class: &DestClass, problem: &Srp) -> Reply
    requires { IsBuiltFor checked.now.network class.now problem.now }
    ensures { Answers result (IsGroupsOf checked.now.network class.now) ⊥ ⊥ }
{
    match lines_of_class(alloc, checked, class, problem) {
        Ok(bytes) => Reply::Output(bytes),
        Err(NoMemory) => Reply::NoMemory,
    }
}

/// The groups of a class.
pub fn answer(alloc: Global, checked: &Checked, class: &DestClass) -> Reply
    requires { Contains (classes_of checked.now.network) class.now }
    ensures { Answers result (IsGroupsOf checked.now.network class.now) ⊥ ⊥ }
{
    match problem_of_class(alloc, checked, class) {
        Ok(problem) => answer_of(alloc, checked, class, &problem),
        Err(NoMemory) => Reply::NoMemory,
    }
}
