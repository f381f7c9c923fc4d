//! The text of the labels that a command writes.

ghost use Rattle.std.specs.Prelude.{◌≡◌, length};
ghost use Rattle.srp_core.specs.Stability.{AreLabels};
ghost use Rattle.solution_text.specs.Printed.{labels_text};
ghost use Rattle.answer_kit.specs.Outcome.{done};
ghost use Rattle.answer_kit.specs.Replies.{Answers, Only};

use answer_kit::Reply;
use base_kit::NoMemory;
use shared_routes::SharedLabels;
use solution_text::text_with_labels;
use srp_core::Srp;
use std::alloc::Global;

/// The text of labels of a problem.
pub fn printed(alloc: Global, problem: &Srp, labels: &SharedLabels) -> Reply
    requires { AreLabels problem.now labels.now }
    ensures { Answers result (Only (done (labels_text problem.now.names labels.now))) ⊥ ⊥ }
{
    let _known = problem.count();
    match text_with_labels(alloc, String::new(alloc), labels, problem.names()) {
        Ok(text) => Reply::Output(text.into_bytes()),
        Err(NoMemory) => Reply::NoMemory,
    }
}
