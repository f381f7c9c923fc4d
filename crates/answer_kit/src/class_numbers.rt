//! The class that a number names, or its refusal.

ghost use Rattle.std.specs.Prelude.{◌≡◌, Some, IfOk, IfErr};
ghost use Rattle.cfg_ast.specs.meaning.Classes.{classes_of};
ghost use Rattle.answer_kit.specs.ClassNumbers.{class_at, no_class, IsOfClass, AllowsNoClass};
ghost use Rattle.answer_kit.specs.Outcome.{refused};
ghost use Rattle.answer_kit.specs.Replies.{Answers, Only};

use crate::reply::{Reply, refuse};
use base_kit::List;
use cfg_ast::DestClass;
use cfg_check::Checked;
use dest_classes::classes;
use std::alloc::Global;

// The class of this number, counted from 1, taken out of the list.
fn taken(classes: List<DestClass>, number: u32) -> Option<DestClass>
    ensures { result ≡ class_at classes number }
{
    if number == 0 {
        return None;
    }
    let mut classes = classes;
    let place = number as usize - 1;
    if place < classes.len() {
        return Some(classes.remove(place));
    }
    None
}

// The refusal where no class has this number.
fn no_class(alloc: Global, number: u32) -> Reply
    ensures { Answers result (Only (refused (no_class number))) ⊥ ⊥ }
{
    refuse(format!(in alloc; "NoClass {number}"))
}

/// The class of this number, counted from 1, or the reply to report if there is no such class.
pub fn class_of_number(alloc: Global, checked: &Checked, number: u32) -> Result<DestClass, Reply>
    ensures class { IfOk result (λ class. class_at (classes_of checked.now.network) number ≡ Some class) }
    ensures none { IfErr result (λ reply. Answers reply (IsOfClass (class_at (classes_of checked.now.network) number) number AllowsNoClass) ⊥ ⊥) }
{
    let Ok(classes) = classes(alloc, checked) else {
        return Err(Reply::NoMemory);
    };
    match taken(classes, number) {
        Some(class) => Ok(class),
        None => Err(no_class(alloc, number)),
    }
}
