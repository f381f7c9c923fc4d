//! The labels that a second file gives, or their refusal.

ghost use Rattle.std.specs.Prelude.{◌≡◌, ◌≤◌, ◌<◌, ℕ, List, length, IfOk, IfErr, IfSome};
ghost use Rattle.io_kit.specs.Ends.{Rose};
ghost use Rattle.srp_core.specs.Stability.{AreLabels};
ghost use Rattle.solution_text.specs.Solutions.{labels_of_text};
ghost use Rattle.base_kit.specs.Names.{AreApart};
ghost use Rattle.answer_kit.specs.Outcome.{refused};
ghost use Rattle.answer_kit.specs.Replies.{Answers, Only};
ghost use Rattle.answer_kit.specs.SecondFiles.{name_of_solution_kind, solution_reason, solution_limit, IsOfLabelsIn, IsOfSolution, AllowsNoLabels, GivesLabels};

use crate::reply::{Reply, refuse};
use crate::second::read_second;
use io_kit::Source;
use solution_text::{SolKind, SolRefusal, read_labels};
use srp_core::{Labels, Srp};
use std::alloc::Global;

// A solution has at most this many bytes.
const SOLUTION_LIMIT: usize = 268_435_456;

fn name_of_kind(kind: SolKind) -> &'static str
    ensures { result.now ≡ name_of_solution_kind kind }
{
    match kind {
        SolKind::BadForm => "BadForm",
        SolKind::UnknownRouter => "UnknownRouter",
        SolKind::Repeated => "Repeated",
        SolKind::Missing => "Missing",
        SolKind::WrongProtocol => "WrongProtocol",
    }
}

// The refusal of a solution, by its line and kind.
fn solution_refusal(alloc: Global, line: u32, kind: SolKind) -> Reply
    ensures { Answers result (Only (refused (solution_reason line kind))) ⊥ ⊥ }
{
    let name = name_of_kind(kind);
    refuse(format!(in alloc; "solution line {line}: {name}"))
}

// The labels of a text.
fn labels_in(alloc: Global, problem: &Srp, text: &[u8]) -> Result<Labels, Reply>
    requires short { length text.now ≤ solution_limit }
    requires apart { AreApart problem.now.names }
    ensures fitting { IfOk result (AreLabels problem.now) }
    ensures read { IfOk result (λ labels. GivesLabels problem.now labels text.now) }
    ensures none { IfErr result (λ reply. Answers reply (IsOfLabelsIn problem.now AllowsNoLabels text.now) ⊥ ⊥) }
{
    let _known = problem.count();
    match read_labels(alloc, text, problem.protocol(), problem.names()) {
        Ok(labels) => Ok(labels),
        Err(SolRefusal::At { line, kind }) => Err(solution_refusal(alloc, line, kind)),
        Err(SolRefusal::Memory) => Err(Reply::NoMemory),
    }
}

/// The labels of a problem that the second file gives, or the reply to report if it gives none.
pub fn solution_of<S: Source>(
    alloc: Global,
    problem: &Srp,
    second: &str,
    files: &mut S,
) -> Result<Labels, Reply>
    requires { AreApart problem.now.names }
    ensures fitting { IfOk result (AreLabels problem.now) }
    ensures read { IfOk result (λ labels. IfSome (S.contents files.old second.now) (GivesLabels problem.now labels)) }
    ensures none { IfErr result (λ reply. Answers reply (IsOfSolution problem.now (S.contents files.old second.now) AllowsNoLabels) ⊥ (Rose (S.faults files.old second.now) (S.faults files.new second.now))) }
    ensures contents { S.contents files.new ≡ S.contents files.old }
    ensures later { (n : List ℕ) → S.faults files.old n ≤ S.faults files.new n }
{
    match read_second(alloc, second, SOLUTION_LIMIT, "solution FileTooLong", files) {
        Ok(text) => labels_in(alloc, problem, &text),
        Err(reply) => Err(reply),
    }
}
