//! What a task writes of one class.

ghost use Rattle.std.specs.Prelude.{◌≡◌, ◌&&◌, ◌++◌, IfOk, List, nat_eq};
ghost use Rattle.srp_core.specs.Without.{marked_down};
ghost use Rattle.ask_classes.specs.Answered.{WritesAnswer};
ghost use Rattle.ask_classes.specs.Failing.{failing_line, IsFailingPart, link_losses, router_losses, Trial};
ghost use Rattle.ask_classes.specs.Scenes.{IsAsking, IsScene};
ghost use Rattle.ask_classes.specs.Tasks.{IsTaskPart};
ghost use Rattle.ask_classes.specs.Tries.{IsTally};
ghost use Rattle.ask_names.specs.Marks.{AreMarksIn};
ghost use Rattle.ask_names.specs.Routers.{question_for};
ghost use Rattle.solution_answers.specs.Verdicts.{is_yes};
ghost use Rattle.solution_answers.specs.Writing.{Writes};

use crate::asking::Asking;
use crate::known::known_of;
use crate::link_trials::put_link_trials;
use crate::manner::Manner;
use crate::router_trials::put_router_trials;
use crate::scene::{Problems, Scene};
use crate::tally::Tally;
use ask_names::{Named, question};
use ask_words::Task;
use base_kit::NoMemory;
use solution_answers::{Told, answer_line, is_yes, put, put_count, put_solutions, solved};
use srp_questions::Verdict;
use std::alloc::Global;

// Appends the answer to a question, and the labels that show a `no`. Its verdict.
fn put_answer(
    alloc: Global,
    bytes: &mut Vec<u8>,
    shows: bool,
    asking: &Asking,
) -> Result<Verdict, NoMemory>
    requires { IsAsking asking.now }
    ensures { IfOk result (WritesAnswer shows asking.now.problems.now.number (question_for asking.now.problems.now.whole.now.names
        (marked_down asking.now.scene.now.routers_down.now asking.now.scene.now.links_down.now) asking.now.asks.now) asking.now.problems.now.left.now bytes.old.items bytes.new.items) }
{
    let left = asking.problems.left;
    let question = question(alloc, asking.asks, asking.named, asking.scene.routers_down)?;
    let answer = solved(alloc, left, &question, shows)?;
    let line = answer_line(
        alloc,
        left,
        asking.problems.number,
        answer.verdict,
        answer.tie,
    )?;
    put(bytes, line.as_bytes())?;
    put(bytes, &answer.shown)?;
    Ok(answer.verdict)
}

// Appends the last line of trials. Whether none failed.
fn put_tally(
    alloc: Global,
    bytes: &mut Vec<u8>,
    number: usize,
    tally: Tally,
) -> Result<bool, NoMemory>
    ensures bytes { IfOk result (λ _. (trials : List Trial) → IsTally trials tally → bytes.new.items ≡ bytes.old.items ++ failing_line number trials) }
    ensures none { IfOk result (λ none. none ≡ nat_eq tally.failed 0) }
{
    let line = tally.line(alloc, number)?;
    put(bytes, line.as_bytes())?;
    Ok(tally.failed == 0)
}

// Whether the answer is `yes`, and each of its trials.
fn are_yes(verdict: Verdict, none_failed: bool) -> bool
    ensures { result ≡ (is_yes verdict && none_failed) }
{
    is_yes(verdict) && none_failed
}

// Appends the answer to a question, and those without each one link more. Whether all are `yes`.
fn put_failing_links(alloc: Global, bytes: &mut Vec<u8>, asking: &Asking) -> Result<bool, NoMemory>
    requires { IsAsking asking.now }
    ensures { IfOk result (Writes (IsFailingPart asking.now.asks.now asking.now.problems.now.number asking.now.problems.now.whole.now (marked_down asking.now.scene.now.routers_down.now asking.now.scene.now.links_down.now)
        (link_losses asking.now.problems.now.whole.now.names asking.now.scene.now.links.now asking.now.scene.now.routers_down.now asking.now.scene.now.links_down.now) asking.now.problems.now.left.now) bytes.old.items bytes.new.items) }
{
    let verdict = put_answer(alloc, bytes, false, asking)?;
    let known = known_of(alloc, asking, verdict)?;
    let tally = put_link_trials(alloc, bytes, asking, &known)?;
    let none_failed = put_tally(alloc, bytes, asking.problems.number, tally)?;
    Ok(are_yes(verdict, none_failed))
}

// The same without each one router more.
fn put_failing_routers(
    alloc: Global,
    bytes: &mut Vec<u8>,
    asking: &Asking,
) -> Result<bool, NoMemory>
    requires { IsAsking asking.now }
    ensures { IfOk result (Writes (IsFailingPart asking.now.asks.now asking.now.problems.now.number asking.now.problems.now.whole.now (marked_down asking.now.scene.now.routers_down.now asking.now.scene.now.links_down.now)
        (router_losses asking.now.problems.now.whole.now.names asking.now.scene.now.routers_down.now asking.now.scene.now.links_down.now) asking.now.problems.now.left.now) bytes.old.items bytes.new.items) }
{
    let verdict = put_answer(alloc, bytes, false, asking)?;
    let tally = put_router_trials(alloc, bytes, asking)?;
    let none_failed = put_tally(alloc, bytes, asking.problems.number, tally)?;
    Ok(are_yes(verdict, none_failed))
}

/// Appends what a task writes of a class, with its number. Whether every answer is `yes`.
///
/// The marks of what is down go with the problem that is left, and the marks of the routers that are named with the
/// question of the task.
///
/// # Errors
/// Out of memory.
pub fn put_class(
    alloc: Global,
    bytes: &mut Vec<u8>,
    manner: Manner,
    scene: &Scene,
    problems: &Problems,
    task: &Task,
    named: &Named,
) -> Result<bool, NoMemory>
    requires scene { IsScene scene.now problems.now }
    requires marks { AreMarksIn problems.now.whole.now.names task.now named.now }
    ensures { IfOk result (Writes (IsTaskPart manner scene.now.network.now scene.now.routers_down.now scene.now.links_down.now problems.now.number problems.now.whole.now problems.now.left.now task.now) bytes.old.items bytes.new.items) }
{
    let left = problems.left;
    let number = problems.number;
    match task {
        Task::Count => put_count(alloc, bytes, left, number),
        Task::Solutions => put_solutions(alloc, bytes, Told::Labels, manner.one, left, number),
        Task::Forwards => put_solutions(alloc, bytes, Told::Hops, manner.one, left, number),
        Task::Answer(asks) => {
            let asking = Asking {
                scene,
                problems,
                asks,
                named,
            };
            let verdict = put_answer(alloc, bytes, manner.shows, &asking)?;
            Ok(is_yes(verdict))
        }
        Task::FailingLinks(asks) => {
            let asking = Asking {
                scene,
                problems,
                asks,
                named,
            };
            put_failing_links(alloc, bytes, &asking)
        }
        Task::FailingRouters(asks) => {
            let asking = Asking {
                scene,
                problems,
                asks,
                named,
            };
            put_failing_routers(alloc, bytes, &asking)
        }
    }
}
