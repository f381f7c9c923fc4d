//! What a command answers to the labels that a second file gives.

ghost use Rattle.std.specs.Prelude.{◌≡◌, ◌≤◌, ℕ, List, Option, Contains};
ghost use Rattle.cfg_ast.specs.meaning.Classes.{classes_of};
ghost use Rattle.io_kit.specs.Ends.{Rose};
ghost use Rattle.srp_core.specs.declared.route.Route.{Route};
ghost use Rattle.srp_core.specs.Problem.{Problem};
ghost use Rattle.srp_core.specs.Stability.{AreLabels};
ghost use Rattle.base_kit.specs.Names.{AreApart};
ghost use Rattle.answer_kit.specs.Outcome.{Outcome};
ghost use Rattle.answer_kit.specs.Replies.{Answers};
ghost use Rattle.answer_kit.specs.SecondFiles.{IsOfSolution};
ghost use Rattle.answer_solutions.specs.ClassSolutions.{IsOfClassSolution};

use answer_kit::{Reply, solution_of};
use base_kit::NoMemory;
use cfg_ast::DestClass;
use cfg_check::Checked;
use driver::problem_of_class;
use io_kit::Source;
use srp_core::{Labels, Srp};
use std::alloc::Global;

/// A command that reports something of the labels of a problem.
pub trait TellsOfLabels {
    /// Which outcomes the command may have: `allowed problem labels outcome`. Each command has its own
    /// definition here, as `check` has `IsJudgement`.
    ghost allowed: { Problem → List (Option Route) → Outcome → Type 0 };

    /// Its reply to labels of a problem, with an outcome that is allowed.
    fn tell(alloc: Global, problem: &Srp, labels: &Labels) -> Reply
        requires { AreLabels problem.now labels.now }
        ensures { Answers result (allowed problem.now labels.now) ⊥ ⊥ };
}

// What is reported of the labels of the problem that the second file gives.
fn answer_of_problem<T: TellsOfLabels, S: Source>(
    alloc: Global,
    problem: &Srp,
    second: &str,
    files: &mut S,
) -> Reply
    requires { AreApart problem.now.names }
    ensures answers { Answers result (IsOfSolution problem.now (S.contents files.old second.now) (T.allowed problem.now)) ⊥ (Rose (S.faults files.old second.now) (S.faults files.new second.now)) }
    ensures contents { S.contents files.new ≡ S.contents files.old }
    ensures later { (n : List ℕ) → S.faults files.old n ≤ S.faults files.new n }
{
    match solution_of(alloc, problem, second, files) {
        Ok(labels) => T::tell(alloc, problem, &labels),
        Err(reply) => reply,
    }
}

/// What is reported of the labels of a class that the second file gives.
pub fn answer_of_solution<T: TellsOfLabels, S: Source>(
    alloc: Global,
    checked: &Checked,
    class: &DestClass,
    second: &str,
    files: &mut S,
) -> Reply
    requires { Contains (classes_of checked.now.network) class.now }
    ensures answers { Answers result (IsOfClassSolution T.allowed checked.now.network (S.contents files.old second.now) class.now) ⊥ (Rose (S.faults files.old second.now) (S.faults files.new second.now)) }
    ensures contents { S.contents files.new ≡ S.contents files.old }
    ensures later { (n : List ℕ) → S.faults files.old n ≤ S.faults files.new n }
{
    match problem_of_class(alloc, checked, class) {
        Ok(problem) => answer_of_problem::<T, S>(alloc, &problem, second, files),
        Err(NoMemory) => Reply::NoMemory,
    }
}
