//! The answer to a command on the class of a number.

ghost use Rattle.std.specs.Prelude.{◌≡◌, Some, None, Contains, MatchOption};
ghost use Rattle.cfg_ast.specs.meaning.Classes.{classes_of};
ghost use Rattle.answer_kit.specs.ClassNumbers.{class_at, no_class};
ghost use Rattle.answer_kit.specs.Outcome.{refused};
ghost use Rattle.answer_kit.specs.Replies.{Answers, Only};
ghost use Rattle.bonsai_top.specs.Outcomes.{IsOnClass};
ghost use Rattle.all_classes.specs.Tellings.{IsAnswer};
ghost use Rattle.all_classes.specs.Work.{IsWorkOf};
ghost use Rattle.srp_build.specs.Built.{IsBuiltFor};

use crate::shared_work::SharedWork;
use answer_certificates::certify;
use answer_groups::{canon, compress, groups};
use answer_kit::{Reply, refuse};
use answer_reports::report;
use answer_reports::report::Form;
use base_kit::NoMemory;
use bonsai_top::ClassCommand;
use cfg_ast::DestClass;
use cfg_check::Checked;
use srp_core::Srp;
use std::alloc::Global;

// The class of this number, counted from 1.
fn class_at<'a>(checked: &Checked, classes: &'a [DestClass], number: u32) -> Option<&'a DestClass>
    requires { classes.now ≡ classes_of checked.now.network }
    ensures { MatchOption result (class_at (classes_of checked.now.network) number ≡ None) (λ class. class_at (classes_of checked.now.network) number ≡ Some class.now) }
{
    if number == 0 {
        return None;
    }
    classes.get(number as usize - 1)
}

// The refusal where no class has this number.
fn no_class(alloc: Global, number: u32) -> Reply
    ensures { Answers result (Only (refused (no_class number))) ⊥ ⊥ }
{
    refuse(format!(in alloc; "NoClass {number}"))
}

// The answer to a command on a class, which has this number and this problem.
fn on_problem(
    alloc: Global,
    command: ClassCommand,
    checked: &Checked,
    number: u32,
    class: &DestClass,
    problem: Srp,
    work: &mut SharedWork,
) -> Reply
    requires class { Contains (classes_of checked.now.network) class.now }
    requires built { IsBuiltFor checked.now.network class.now problem }
    requires work { IsWorkOf checked.now.network work.old }
    ensures work { IsWorkOf checked.now.network work.new }
    ensures answers { Answers result (IsOnClass command checked.now.network number class.now) ⊥ ⊥ }
{
    match command {
        ClassCommand::Groups => groups::answer_of(alloc, checked, class, &problem),
        ClassCommand::Compress => compress::answer_of(alloc, checked, class, problem),
        ClassCommand::Report => {
            report::answer_of(
                alloc,
                Form::Lines,
                checked,
                &work.part,
                number,
                class,
                problem,
            )
        }
        ClassCommand::Json => {
            report::answer_of(
                alloc,
                Form::Json,
                checked,
                &work.part,
                number,
                class,
                problem,
            )
        }
        ClassCommand::Canon => {
            canon::answer_of(alloc, checked, class, problem, &mut work.shared.store)
        }
        ClassCommand::Certify => certify::answer_of(alloc, checked, class, &problem),
    }
}

// The answer to a command on a class, which has this number.
fn on_class(
    alloc: Global,
    command: ClassCommand,
    checked: &Checked,
    number: u32,
    class: &DestClass,
    work: &mut SharedWork,
) -> Reply
    requires class { Contains (classes_of checked.now.network) class.now }
    requires work { IsWorkOf checked.now.network work.old }
    ensures work { IsWorkOf checked.now.network work.new }
    ensures answers { Answers result (IsOnClass command checked.now.network number class.now) ⊥ ⊥ }
{
    match work.shared.problem(alloc, checked, class) {
        Ok(problem) => on_problem(alloc, command, checked, number, class, problem, work),
        Err(NoMemory) => Reply::NoMemory,
    }
}

/// The answer to a command on the class of this number.
pub fn answer(
    alloc: Global,
    command: ClassCommand,
    checked: &Checked,
    classes: &[DestClass],
    number: u32,
    work: &mut SharedWork,
) -> Reply
    requires classes { classes.now ≡ classes_of checked.now.network }
    requires work { IsWorkOf checked.now.network work.old }
    ensures work { IsWorkOf checked.now.network work.new }
    ensures answers { Answers result (IsAnswer command checked.now.network number) ⊥ ⊥ }
{
    match class_at(checked, classes, number) {
        Some(class) => on_class(alloc, command, checked, number, class, work),
        None => no_class(alloc, number),
    }
}
