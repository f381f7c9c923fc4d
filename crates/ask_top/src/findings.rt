//! What a command finds over its files.

ghost use Rattle.std.specs.Prelude.{◌≡◌, ◌≤◌, ℕ, List, Some};
ghost use Rattle.endings.specs.Findings.{Finds};
ghost use Rattle.endings.specs.Telling.{refused};
ghost use Rattle.io_kit.specs.Ends.{Rose};
ghost use Rattle.network_files.specs.NetworkFiles.{IsOfFile};
ghost use Rattle.ask_top.specs.Outcomes.{long_questions, IsOfCommand, IsOfQuestionFile};
ghost use Rattle.ask_top.specs.Reads.{QuestionsFailed, QuestionsRose};

use ask_answers::{answer, answers};
use ask_words::Command;
use cfg_check::Checked;
use endings::Finding;
use io_kit::{InFault, Source, read_all};
use network_files::network_of;
use std::alloc::Global;

// A file of questions has at most this many bytes.
const QUESTIONS_LIMIT: usize = 16_777_216;

fn long_questions(alloc: Global) -> Finding
    ensures { Finds result (λ o. o ≡ refused long_questions) ⊥ ⊥ }
{
    match Vec::from_slice(alloc, b"questions FileTooLong") {
        Ok(reason) => Finding::Refusal(reason),
        Err(_) => Finding::NoMemory,
    }
}

// What a file of questions finds over a network.
fn on_questions<S: Source>(alloc: Global, checked: &Checked, second: &str, files: &mut S) -> Finding
    ensures finds { Finds result (IsOfQuestionFile (S.contents files.old second.now) checked.now.network) ⊥ (Rose (S.faults files.old second.now) (S.faults files.new second.now)) }
    ensures contents { S.contents files.new ≡ S.contents files.old }
    ensures later { (n : List ℕ) → S.faults files.old n ≤ S.faults files.new n }
{
    match read_all(alloc, files, second, QUESTIONS_LIMIT) {
        Ok(text) => answers(alloc, checked, &text),
        Err(InFault::TooLong) => long_questions(alloc),
        Err(InFault::Failed) => Finding::SecondFailed,
        Err(InFault::Memory) => Finding::NoMemory,
    }
}

// What a command finds over a network. `class` is the word for the classes.
fn on_network<S: Source>(
    alloc: Global,
    command: &Command,
    checked: &Checked,
    class: &str,
    second: &str,
    files: &mut S,
) -> Finding
    ensures finds { Finds result (IsOfCommand command.now class.now (S.contents files.old second.now) checked.now.network) ⊥
        (QuestionsRose (Some command.now) (S.faults files.old second.now) (S.faults files.new second.now)) }
    ensures contents { S.contents files.new ≡ S.contents files.old }
    ensures later { (n : List ℕ) → S.faults files.old n ≤ S.faults files.new n }
{
    match command {
        Command::One(request) => answer(alloc, checked, request, class),
        Command::Questions => on_questions(alloc, checked, second, files),
    }
}

/// What a command finds over the files of these names. `class` is the word for the classes.
pub(crate) fn found<S: Source>(
    alloc: Global,
    command: &Command,
    first: &str,
    class: &str,
    second: &str,
    files: &mut S,
) -> Finding
    ensures finds { Finds result (IsOfFile (IsOfCommand command.now class.now (S.contents files.old second.now)) (S.contents files.old first.now))
        (Rose (S.faults files.old first.now) (S.faults files.new first.now))
        (QuestionsFailed (Some command.now) (S.contents files.old first.now) (S.faults files.old second.now) (S.faults files.new second.now)) }
    ensures contents { S.contents files.new ≡ S.contents files.old }
    ensures later { (n : List ℕ) → S.faults files.old n ≤ S.faults files.new n }
{
    match network_of(alloc, first, files) {
        Ok(checked) => on_network(alloc, command, &checked, class, second, files),
        Err(finding) => finding,
    }
}
