//! The work of a command, up to its reply.

ghost use Rattle.std.specs.Prelude.{◌≡◌, ◌≤◌, ℕ, List, length, Some, Contains, false};
ghost use Rattle.cfg_ast.specs.meaning.Classes.{classes_of};
ghost use Rattle.cfg_ast.specs.text.Reading.{reading_of};
ghost use Rattle.io_kit.specs.Ends.{Rose};
ghost use Rattle.bonsai_top.specs.Commands.{reads_first, FirstRose, SecondRose};
ghost use Rattle.bonsai_top.specs.Faults.{LeadsToSecond, ReadsSecondOf, SecondFailed};
ghost use Rattle.answer_kit.specs.Networks.{text_limit};
ghost use Rattle.bonsai_top.specs.Outcomes.{IsOnNetwork, IsOnClass, IsOnSecond, IsAnswerTo, IsOutcomeOfReading, IsOutcomeOfFiles, IsOutcomeOf};
ghost use Rattle.answer_kit.specs.Replies.{Answers};

use crate::command::{ClassCommand, Command, NetworkCommand, SecondCommand};
use answer_certificates::{certify, verify};
use answer_groups::{canon, classes, compress, groups};
use answer_kit::{Reply, class_of_number};
use answer_reports::report::Form;
use answer_reports::{report, summary, trial};
use answer_runs::{reach, run};
use answer_solutions::carry::Way;
use answer_solutions::{carry, check};
use answer_texts::{TEXT_LIMIT, long_text, network_in};
use cfg_ast::DestClass;
use cfg_check::Checked;
use io_kit::{InFault, Source, read_all};
use std::alloc::Global;

fn on_network(alloc: Global, command: NetworkCommand, checked: &Checked) -> Reply
    ensures { Answers result (IsOnNetwork command checked.now.network) ⊥ ⊥ }
{
    match command {
        NetworkCommand::Classes => classes::answer(alloc, checked),
        NetworkCommand::Summary => summary::answer(alloc, checked),
    }
}

fn on_class(
    alloc: Global,
    command: ClassCommand,
    checked: &Checked,
    number: u32,
    class: &DestClass,
) -> Reply
    requires { Contains (classes_of checked.now.network) class.now }
    ensures { Answers result (IsOnClass command checked.now.network number class.now) ⊥ ⊥ }
{
    match command {
        ClassCommand::Groups => groups::answer(alloc, checked, class),
        ClassCommand::Compress => compress::answer(alloc, checked, class),
        ClassCommand::Report => report::answer(alloc, Form::Lines, checked, number, class),
        ClassCommand::Json => report::answer(alloc, Form::Json, checked, number, class),
        ClassCommand::Canon => canon::answer(alloc, checked, class),
        ClassCommand::Certify => certify::answer(alloc, checked, class),
    }
}

fn on_second<S: Source>(
    alloc: Global,
    command: SecondCommand,
    checked: &Checked,
    class: &DestClass,
    second: &str,
    files: &mut S,
) -> Reply
    requires { Contains (classes_of checked.now.network) class.now }
    ensures answers { Answers result (IsOnSecond command checked.now.network (S.contents files.old second.now) class.now) ⊥
        (Rose (S.faults files.old second.now) (S.faults files.new second.now)) }
    ensures contents { S.contents files.new ≡ S.contents files.old }
    ensures later { (n : List ℕ) → S.faults files.old n ≤ S.faults files.new n }
{
    match command {
        SecondCommand::Check => check::answer(alloc, checked, class, second, files),
        SecondCommand::Fold => carry::answer(alloc, Way::Fold, checked, class, second, files),
        SecondCommand::Lift => carry::answer(alloc, Way::Lift, checked, class, second, files),
        SecondCommand::Run => run::answer(alloc, checked, class, second, files),
        SecondCommand::Reach => reach::answer(alloc, checked, class, second, files),
        SecondCommand::Verify => verify::answer(alloc, checked, class, second, files),
    }
}

// What a command writes of a network that has no fault.
fn answer<S: Source>(
    alloc: Global,
    command: Command,
    checked: &Checked,
    second: &str,
    files: &mut S,
) -> Reply
    ensures answers { Answers result (IsAnswerTo command checked.now.network (S.contents files.old second.now)) ⊥
        (SecondRose (Some command) (S.faults files.old second.now) (S.faults files.new second.now) × ReadsSecondOf command checked.now.network) }
    ensures contents { S.contents files.new ≡ S.contents files.old }
    ensures later { (n : List ℕ) → S.faults files.old n ≤ S.faults files.new n }
{
    match command {
        Command::OnNetwork(command) => on_network(alloc, command, checked),
        Command::OnClass(command, number) => match class_of_number(alloc, checked, number) {
            Ok(class) => on_class(alloc, command, checked, number, &class),
            Err(reply) => reply,
        },
        Command::OnSecond(command, number) => match class_of_number(alloc, checked, number) {
            Ok(class) => on_second(alloc, command, checked, &class, second, files),
            Err(reply) => reply,
        },
        Command::Trial(size) => trial::answer(alloc, size),
    }
}

// Reads the network of a text, and does the command's work on it.
fn over_text<S: Source>(
    alloc: Global,
    command: Command,
    text: &[u8],
    second: &str,
    files: &mut S,
) -> Reply
    requires { length text.now ≤ text_limit }
    ensures answers { Answers result (IsOutcomeOfReading command (S.contents files.old second.now) (reading_of text.now)) ⊥
        (SecondRose (Some command) (S.faults files.old second.now) (S.faults files.new second.now) × LeadsToSecond command text.now) }
    ensures contents { S.contents files.new ≡ S.contents files.old }
    ensures later { (n : List ℕ) → S.faults files.old n ≤ S.faults files.new n }
{
    match network_in(alloc, text) {
        Ok(checked) => answer(alloc, command, &checked, second, files),
        Err(reply) => reply,
    }
}

// Reads the first file, and does the command's work.
fn over_files<S: Source>(
    alloc: Global,
    command: Command,
    first: &str,
    second: &str,
    files: &mut S,
) -> Reply
    ensures answers { Answers result (IsOutcomeOfFiles command (S.contents files.old first.now) (S.contents files.old second.now))
        (Rose (S.faults files.old first.now) (S.faults files.new first.now))
        (SecondFailed (Some command) (S.contents files.old first.now) (S.faults files.old second.now) (S.faults files.new second.now)) }
    ensures contents { S.contents files.new ≡ S.contents files.old }
    ensures later { (n : List ℕ) → S.faults files.old n ≤ S.faults files.new n }
{
    match read_all(alloc, files, first, TEXT_LIMIT) {
        Ok(text) => over_text(alloc, command, &text, second, files),
        Err(InFault::TooLong) => long_text(alloc),
        Err(InFault::Failed) => Reply::ReadFailed,
        Err(InFault::Memory) => Reply::NoMemory,
    }
}

/// Does the command's work, over the files if it reads one.
pub fn work<S: Source>(
    alloc: Global,
    command: Command,
    first: &str,
    second: &str,
    files: &mut S,
) -> Reply
    ensures answers { Answers result (IsOutcomeOf command (S.contents files.old first.now) (S.contents files.old second.now))
        (FirstRose (Some command) (S.faults files.old first.now) (S.faults files.new first.now))
        (SecondFailed (Some command) (S.contents files.old first.now) (S.faults files.old second.now) (S.faults files.new second.now)) }
    ensures contents { S.contents files.new ≡ S.contents files.old }
    ensures later { (n : List ℕ) → S.faults files.old n ≤ S.faults files.new n }
    ensures unread { reads_first command ≡ false → files.new ≡ files.old }
{
    match command {
        Command::Trial(size) => trial::answer(alloc, size),
        _ => over_files(alloc, command, first, second, files),
    }
}
