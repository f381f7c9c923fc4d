//! The command `check`.

ghost use Rattle.std.specs.Prelude.{◌≡◌, ◌≤◌, ℕ, List, codes, Contains};
ghost use Rattle.cfg_ast.specs.meaning.Classes.{classes_of};
ghost use Rattle.io_kit.specs.Ends.{Rose};
ghost use Rattle.answer_solutions.specs.Checks.{IsJudgement, IsCheckOf};
ghost use Rattle.answer_kit.specs.Outcome.{done};
ghost use Rattle.answer_kit.specs.Replies.{Answers, Only};

use crate::breaks::broken;
use crate::class_solution::{TellsOfLabels, answer_of_solution};
use answer_kit::Reply;
use base_kit::NoMemory;
use cfg_ast::DestClass;
use cfg_check::Checked;
use io_kit::Source;
use solution_check::{Answer, check};
use srp_core::{Labels, Srp};
use std::alloc::Global;

fn stable(alloc: Global) -> Reply
    ensures { Answers result (Only (done (codes "stable\n"))) ⊥ ⊥ }
{
    match Vec::from_slice(alloc, b"stable\n") {
        Ok(bytes) => Reply::Output(bytes),
        Err(_) => Reply::NoMemory,
    }
}

// Whether labels of a problem are stable.
struct Judgement;

impl TellsOfLabels for Judgement {
    ghost allowed = { IsJudgement };

    fn tell(alloc: Global, problem: &Srp, labels: &Labels) -> Reply {
        match check(alloc, problem, labels) {
            Ok(Answer::Stable) => stable(alloc),
            Ok(Answer::Not { router, why }) => broken(alloc, problem, router, why),
            Err(NoMemory) => Reply::NoMemory,
        }
    }
}

/// Answers whether the labels that the second file gives are a stable solution of the class. If they are
/// not, it names the first router that breaks stability, and why.
pub fn answer<S: Source>(
    alloc: Global,
    checked: &Checked,
    class: &DestClass,
    second: &str,
    files: &mut S,
) -> Reply
    requires { Contains (classes_of checked.now.network) class.now }
    ensures answers { Answers result (IsCheckOf checked.now.network (S.contents files.old second.now) class.now) ⊥ (Rose (S.faults files.old second.now) (S.faults files.new second.now)) }
    ensures contents { S.contents files.new ≡ S.contents files.old }
    ensures later { (n : List ℕ) → S.faults files.old n ≤ S.faults files.new n }
{
    answer_of_solution::<Judgement, S>(alloc, checked, class, second, files)
}
