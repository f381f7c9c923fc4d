//! The command `reach`.

ghost use Rattle.std.specs.Prelude.{◌≡◌, ◌≤◌, ◌++◌, ℕ, All, List, Contains, IfOk, string_bytes};
ghost use Rattle.cfg_ast.specs.meaning.Classes.{classes_of};
ghost use Rattle.io_kit.specs.Ends.{Rose};
ghost use Rattle.srp_core.specs.Problem.{count};
ghost use Rattle.srp_core.specs.Stability.{IsStable};
ghost use Rattle.route_run.specs.Schedules.{routers_of, run_of, IsSingle};
ghost use Rattle.answer_kit.specs.Outcome.{done};
ghost use Rattle.answer_kit.specs.Replies.{Answers};
ghost use Rattle.answer_runs.specs.Reaches.{name_lines, IsOrderTold, IsReach, IsReachOf};

use answer_kit::{Reply, router_name};
use answer_solutions::breaks::broken;
use answer_solutions::class_solution::{TellsOfLabels, answer_of_solution};
use base_kit::NoMemory;
use cfg_ast::DestClass;
use cfg_check::Checked;
use io_kit::Source;
use route_run::{Activation, reach};
use solution_check::{Answer, check};
use srp_core::{Labels, Srp};
use std::alloc::{AllocError, Global};

// Puts a line with the name of the one router that is activated.
fn put_name(text: &mut String, problem: &Srp, activation: Activation) -> Result<(), AllocError>
    requires { IsSingle activation }
    ensures { IfOk result (λ _. string_bytes text.new ≡ string_bytes text.old ++ name_lines problem.now (routers_of (count problem.now) activation)) }
{
    match activation {
        Activation::One(router) => {
            let name = router_name(problem, router);
            text.push_str(name)?;
            text.push_str("\n")?;
            Ok(())
        }
        Activation::Round => Ok(()),
    }
}

fn name_lines(alloc: Global, problem: &Srp, schedule: &[Activation]) -> Result<Vec<u8>, AllocError>
    requires { All IsSingle schedule.now }
    ensures { IfOk result (λ bytes. bytes.items ≡ name_lines problem.now (run_of (count problem.now) schedule.now)) }
{
    let mut text = String::new(alloc);
    for activation in schedule {
        put_name(&mut text, problem, *activation)?;
    }
    Ok(text.into_bytes())
}

// The order of stable labels, one name on each line.
fn order_text(alloc: Global, problem: &Srp, labels: &Labels) -> Result<Vec<u8>, NoMemory>
    requires { IsStable problem.now labels.now }
    ensures { IfOk result (λ bytes. IsOrderTold problem.now labels.now (done bytes.items)) }
{
    let schedule = reach(alloc, problem, labels)?;
    let text = name_lines(alloc, problem, schedule.as_slice())?;
    Ok(text)
}

fn ordered(alloc: Global, problem: &Srp, labels: &Labels) -> Reply
    requires { IsStable problem.now labels.now }
    ensures { Answers result (IsOrderTold problem.now labels.now) ⊥ ⊥ }
{
    match order_text(alloc, problem, labels) {
        Ok(bytes) => Reply::Output(bytes),
        Err(NoMemory) => Reply::NoMemory,
    }
}

// The order of labels of a problem, or why they have none.
struct Order;

impl TellsOfLabels for Order {
    ghost allowed = { IsReach };

    fn tell(alloc: Global, problem: &Srp, labels: &Labels) -> Reply {
        match check(alloc, problem, labels) {
            Ok(Answer::Stable) => ordered(alloc, problem, labels),
            Ok(Answer::Not { router, why }) => broken(alloc, problem, router, why),
            Err(NoMemory) => Reply::NoMemory,
        }
    }
}

/// The order of the solution in the second file, for a class, with one name on each line. The order, run
/// from no labels, leads to a solution in which each router has the same key.
pub fn answer<S: Source>(
    alloc: Global,
    checked: &Checked,
    class: &DestClass,
    second: &str,
    files: &mut S,
) -> Reply
    requires { Contains (classes_of checked.now.network) class.now }
    ensures answers { Answers result (IsReachOf checked.now.network (S.contents files.old second.now) class.now) ⊥ (Rose (S.faults files.old second.now) (S.faults files.new second.now)) }
    ensures contents { S.contents files.new ≡ S.contents files.old }
    ensures later { (n : List ℕ) → S.faults files.old n ≤ S.faults files.new n }
{
    answer_of_solution::<Order, S>(alloc, checked, class, second, files)
}
