//! The command `run`.

ghost use Rattle.std.specs.Prelude.{◌≡◌, ◌≤◌, ◌<◌, ◌++◌, ℕ, All, List, Contains, IfOk, OnOk, length, string_bytes};
ghost use Rattle.cfg_ast.specs.meaning.Classes.{classes_of};
ghost use Rattle.io_kit.specs.Ends.{Rose};
ghost use Rattle.srp_core.specs.Problem.{count};
ghost use Rattle.srp_core.specs.Stability.{AreLabels};
ghost use Rattle.route_run.specs.Activations.{labels_after, no_labels};
ghost use Rattle.route_run.specs.Schedules.{run_of};
ghost use Rattle.answer_kit.specs.Outcome.{done, refused};
ghost use Rattle.answer_kit.specs.Replies.{Answers, Only};
ghost use Rattle.answer_kit.specs.SecondFiles.{IsOfSecond};
ghost use Rattle.answer_runs.specs.Schedules.{schedule_limit, long_schedule, schedule_reason, rest_line, IsRest, IsOfSchedule, IsRunOf};

use answer_kit::{Reply, read_second, refuse, router_name};
use base_kit::{List, NoMemory};
use cfg_ast::DestClass;
use cfg_check::Checked;
use driver::problem_of_class;
use io_kit::Source;
use route_run::{Activation, ScheduleRefusal, moving, read_schedule, run_schedule};
use shared_routes::SharedLabels;
use solution_text::text_with_labels;
use srp_core::Srp;
use std::alloc::{AllocError, Global};
use std::fmt::Write;

// A schedule has at most this many bytes.
const SCHEDULE_LIMIT: usize = 16_777_216;

// Whether labels are at rest, in a line.
fn put_rest(text: &mut String, problem: &Srp, moving: Option<u32>) -> Result<(), AllocError>
    ensures { OnOk result (string_bytes text.new ≡ string_bytes text.old ++ rest_line problem.now moving) }
{
    match moving {
        None => text.push_str("rest\n"),
        Some(router) => {
            let name = router_name(problem, router);
            write!(text, "moving {name}\n")
        }
    }
}

// The line, and the labels behind it. The text is long, so it is built in one piece.
fn rest_text(alloc: Global, problem: &Srp, labels: &SharedLabels) -> Result<Vec<u8>, NoMemory>
    requires { AreLabels problem.now labels.now }
    ensures { IfOk result (λ bytes. IsRest problem.now labels.now (done bytes.items)) }
{
    let _known = problem.count();
    let moving = moving(alloc, problem, labels)?;
    let mut text = String::new(alloc);
    put_rest(&mut text, problem, moving)?;
    let text = text_with_labels(alloc, text, labels, problem.names())?;
    Ok(text.into_bytes())
}

// Runs a schedule of the problem.
fn ran(alloc: Global, problem: &Srp, schedule: &List<Activation>) -> Reply
    requires { All (λ u. u < count problem.now) (run_of (count problem.now) schedule.now) }
    ensures { Answers result (IsRest problem.now (labels_after problem.now (no_labels problem.now) (run_of (count problem.now) schedule.now))) ⊥ ⊥ }
{
    let Ok(labels) = run_schedule(alloc, problem, schedule) else {
        return Reply::NoMemory;
    };
    match rest_text(alloc, problem, &labels) {
        Ok(bytes) => Reply::Output(bytes),
        Err(NoMemory) => Reply::NoMemory,
    }
}

// The refusal of a schedule, by its line.
fn schedule_refusal(alloc: Global, line: u32) -> Reply
    ensures { Answers result (Only (refused (schedule_reason line))) ⊥ ⊥ }
{
    refuse(format!(in alloc; "schedule line {line}: UnknownRouter"))
}

// Runs the schedule of a text.
fn run_text(alloc: Global, problem: &Srp, text: &[u8]) -> Reply
    requires { length text.now ≤ schedule_limit }
    ensures { Answers result (IsOfSchedule problem.now text.now) ⊥ ⊥ }
{
    let _known = problem.count();
    match read_schedule(alloc, text, problem.names()) {
        Ok(schedule) => ran(alloc, problem, &schedule),
        Err(ScheduleRefusal::UnknownRouter(line)) => schedule_refusal(alloc, line),
        Err(ScheduleRefusal::Memory) => Reply::NoMemory,
    }
}

// Runs the schedule that the second file gives.
fn answer_of_problem<S: Source>(alloc: Global, problem: &Srp, second: &str, files: &mut S) -> Reply
    ensures answers { Answers result (IsOfSecond schedule_limit long_schedule (S.contents files.old second.now) (IsOfSchedule problem.now)) ⊥ (Rose (S.faults files.old second.now) (S.faults files.new second.now)) }
    ensures contents { S.contents files.new ≡ S.contents files.old }
    ensures later { (n : List ℕ) → S.faults files.old n ≤ S.faults files.new n }
{
    match read_second(alloc, second, SCHEDULE_LIMIT, "schedule FileTooLong", files) {
        Ok(text) => run_text(alloc, problem, &text),
        Err(reply) => reply,
    }
}

/// Runs the schedule in the second file on a class, from no labels. It answers whether the labels are
/// then at rest, and the labels.
pub fn answer<S: Source>(
    alloc: Global,
    checked: &Checked,
    class: &DestClass,
    second: &str,
    files: &mut S,
) -> Reply
    requires { Contains (classes_of checked.now.network) class.now }
    ensures answers { Answers result (IsRunOf checked.now.network (S.contents files.old second.now) class.now) ⊥ (Rose (S.faults files.old second.now) (S.faults files.new second.now)) }
    ensures contents { S.contents files.new ≡ S.contents files.old }
    ensures later { (n : List ℕ) → S.faults files.old n ≤ S.faults files.new n }
{
    match problem_of_class(alloc, checked, class) {
        Ok(problem) => answer_of_problem(alloc, &problem, second, files),
        Err(NoMemory) => Reply::NoMemory,
    }
}
