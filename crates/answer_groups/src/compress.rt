//! The command `compress`.

ghost use Rattle.std.specs.Prelude.{◌≡◌, Contains};
ghost use Rattle.cfg_ast.specs.meaning.Classes.{classes_of};
ghost use Rattle.answer_groups.specs.CompressText.{IsCompressOf};
ghost use Rattle.answer_kit.specs.Replies.{Answers};
ghost use Rattle.srp_build.specs.Built.{IsBuiltFor};

use crate::emission::told;
use answer_kit::Reply;
use base_kit::NoMemory;
use cfg_ast::DestClass;
use cfg_check::Checked;
use driver::{emitted_of, problem_of_class};
use srp_core::Srp;
use std::alloc::Global;

/// The network of the groups of a class, whose problem this is, as configurations.
pub fn answer_of(alloc: Global, checked: &Checked, class: &DestClass, problem: Srp) -> Reply
    requires class { Contains (classes_of checked.now.network) class.now }
    requires built { IsBuiltFor checked.now.network class.now problem }
    ensures { Answers result (IsCompressOf checked.now.network class.now) ⊥ ⊥ }
{
    let emitted = emitted_of(alloc, checked, class, problem);
    told(alloc, emitted)
}

/// The network of the groups of a class, as configurations.
pub fn answer(alloc: Global, checked: &Checked, class: &DestClass) -> Reply
    requires { Contains (classes_of checked.now.network) class.now }
    ensures { Answers result (IsCompressOf checked.now.network class.now) ⊥ ⊥ }
{
    match problem_of_class(alloc, checked, class) {
        Ok(problem) => answer_of(alloc, checked, class, problem),
        Err(NoMemory) => Reply::NoMemory,
    }
}
