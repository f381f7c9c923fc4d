//! The commands `fold` and `lift`.

ghost use Rattle.std.specs.Prelude.{◌≡◌, ◌≤◌, ℕ, List, Contains};
ghost use Rattle.cfg_ast.specs.meaning.Classes.{classes_of};
ghost use Rattle.io_kit.specs.Ends.{Rose};
ghost use Rattle.srp_core.specs.Quotient.{IsAdmissible, IsQuotient};
ghost use Rattle.srp_core.specs.Stability.{AreLabels, IsStable};
ghost use Rattle.base_kit.specs.Names.{AreApart};
ghost use Rattle.answer_kit.specs.Replies.{Answers};
ghost use Rattle.answer_kit.specs.SecondFiles.{IsOfSolution};
ghost use Rattle.answer_solutions.specs.Carries.{AreSides, carried_from, IsFolded, IsLifted, IsCarriedBy, IsCarryOfLabels, IsCarryOf};

use crate::breaks::broken;
use crate::printing::printed;
use crate::sides::{Sides, sides_of};
use answer_kit::{Reply, solution_of};
use base_kit::NoMemory;
use cfg_ast::DestClass;
use cfg_check::Checked;
use io_kit::Source;
use solution_check::{Answer, check};
use solution_lift::{fold_into, lift_from};
use srp_core::{Labels, Srp};
use srp_quotient::laws::quotient_is_quotient;
use std::alloc::Global;

/// Which way labels are carried: from the routers to the groups, or from the groups to the routers.
#[derive(Clone, Copy, Debug, PartialEq, Eq)]
pub enum Way {
    Fold,
    Lift,
}

// The problem from which labels are carried.
fn carried_from(way: Way, sides: &Sides) -> &Srp
    ensures { result.now ≡ carried_from way sides.now }
{
    match way {
        Way::Fold => &sides.problem,
        Way::Lift => &sides.small,
    }
}

// The labels of the groups.
fn folded(alloc: Global, sides: &Sides, labels: &Labels) -> Reply
    requires groups { IsAdmissible sides.now.problem sides.now.groups }
    requires quotient { IsQuotient sides.now.problem sides.now.groups sides.now.small }
    requires stable { IsStable sides.now.problem labels.now }
    ensures { Answers result (IsFolded sides.now labels.now) ⊥ ⊥ }
{
    match fold_into(alloc, &sides.problem, &sides.small, &sides.groups, labels) {
        Ok(lower) => printed(alloc, &sides.small, &lower),
        Err(NoMemory) => Reply::NoMemory,
    }
}

// The labels of the routers.
fn lifted(alloc: Global, sides: &Sides, lower: &Labels) -> Reply
    requires groups { IsAdmissible sides.now.problem sides.now.groups }
    requires quotient { IsQuotient sides.now.problem sides.now.groups sides.now.small }
    requires stable { IsStable sides.now.small lower.now }
    ensures { Answers result (IsLifted sides.now lower.now) ⊥ ⊥ }
{
    match lift_from(alloc, &sides.problem, &sides.small, &sides.groups, lower) {
        Ok(labels) => printed(alloc, &sides.problem, &labels),
        Err(NoMemory) => Reply::NoMemory,
    }
}

// The labels of the other problem.
fn carried(alloc: Global, way: Way, sides: &Sides, labels: &Labels) -> Reply
    requires groups { IsAdmissible sides.now.problem sides.now.groups }
    requires quotient { IsQuotient sides.now.problem sides.now.groups sides.now.small }
    requires stable { IsStable (carried_from way sides.now) labels.now }
    ensures { Answers result (IsCarriedBy way sides.now labels.now) ⊥ ⊥ }
{
    match way {
        Way::Fold => folded(alloc, sides, labels),
        Way::Lift => lifted(alloc, sides, labels),
    }
}

// The labels of the other problem, where those of this one are stable.
fn answer_of_labels(alloc: Global, way: Way, sides: &Sides, problem: &Srp, labels: &Labels) -> Reply
    requires from { problem.now ≡ carried_from way sides.now }
    requires groups { IsAdmissible sides.now.problem sides.now.groups }
    requires quotient { IsQuotient sides.now.problem sides.now.groups sides.now.small }
    requires labels { AreLabels problem.now labels.now }
    ensures { Answers result (IsCarryOfLabels way sides.now problem.now labels.now) ⊥ ⊥ }
{
    match check(alloc, problem, labels) {
        Ok(Answer::Stable) => carried(alloc, way, sides, labels),
        Ok(Answer::Not { router, why }) => broken(alloc, problem, router, why),
        Err(NoMemory) => Reply::NoMemory,
    }
}

// The labels of the other problem for those of this one that the second file gives.
fn answer_of_sides<S: Source>(
    alloc: Global,
    way: Way,
    sides: &Sides,
    problem: &Srp,
    second: &str,
    files: &mut S,
) -> Reply
    requires from { problem.now ≡ carried_from way sides.now }
    requires apart { AreApart problem.now.names }
    requires groups { IsAdmissible sides.now.problem sides.now.groups }
    requires quotient { IsQuotient sides.now.problem sides.now.groups sides.now.small }
    ensures answers { Answers result (IsOfSolution problem.now (S.contents files.old second.now) (IsCarryOfLabels way sides.now problem.now)) ⊥ (Rose (S.faults files.old second.now) (S.faults files.new second.now)) }
    ensures contents { S.contents files.new ≡ S.contents files.old }
    ensures later { (n : List ℕ) → S.faults files.old n ≤ S.faults files.new n }
{
    match solution_of(alloc, problem, second, files) {
        Ok(labels) => answer_of_labels(alloc, way, sides, problem, &labels),
        Err(reply) => reply,
    }
}

/// Carries the solution in the second file, for a class: a solution of the routers gives labels of the
/// groups, and a solution of the groups gives labels of the routers. The labels stand in the order of
/// the groups or routers that they label.
pub fn answer<S: Source>(
    alloc: Global,
    way: Way,
    checked: &Checked,
    class: &DestClass,
    second: &str,
    files: &mut S,
) -> Reply
    requires { Contains (classes_of checked.now.network) class.now }
    ensures answers { Answers result (IsCarryOf way checked.now.network (S.contents files.old second.now) class.now) ⊥ (Rose (S.faults files.old second.now) (S.faults files.new second.now)) }
    ensures contents { S.contents files.new ≡ S.contents files.old }
    ensures later { (n : List ℕ) → S.faults files.old n ≤ S.faults files.new n }
{
    quotient_is_quotient();
    match sides_of(alloc, checked, class) {
        Ok(sides) => {
            let problem = carried_from(way, &sides);
            answer_of_sides(alloc, way, &sides, problem, second, files)
        }
        Err(NoMemory) => Reply::NoMemory,
    }
}
