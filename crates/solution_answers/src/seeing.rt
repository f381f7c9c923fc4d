//! Whether a question is true in the solutions that are found.

ghost use Rattle.std.specs.Prelude.{◌≡◌, [], IfOk, MatchOption, if◌then◌else◌};
ghost use Rattle.srp_core.specs.Stability.{AreLabels, IsStable};
ghost use Rattle.solution_text.specs.Printed.{labels_text};
ghost use Rattle.srp_questions.specs.Questions.{IsAskedOf, IsTrueIn};
ghost use Rattle.solution_answers.specs.Seen.{HasAsked, IsFailure, wants_more};

use crate::labels::labels_text;
use base_kit::NoMemory;
use shared_routes::SharedLabels;
use solution_search::Visitor;
use srp_core::Srp;
use srp_questions::{Question, is_true};
use std::alloc::Global;

/// Sees solutions until the question is false in one. The text of its labels is kept if they are to be
/// shown.
#[derive(Drop)]
pub(crate) struct Asker<'a> {
    pub(crate) alloc: Global,
    pub(crate) srp: &'a Srp,
    pub(crate) question: &'a Question,
    pub(crate) shows: bool,
    pub(crate) some: bool,
    pub(crate) failed: Option<Vec<u8>>,
    ghost asked: { IsAskedOf srp.now question.now },
}

// The text of labels, if they are to be shown.
fn text_of(
    alloc: Global,
    srp: &Srp,
    labels: &SharedLabels,
    shows: bool,
) -> Result<Vec<u8>, NoMemory>
    requires { AreLabels srp.now labels.now }
    ensures { IfOk result (λ text. text.items ≡ (if shows then labels_text srp.now.names labels.now else [])) }
{
    if !shows {
        return Ok(Vec::new(alloc));
    }
    labels_text(alloc, srp, labels)
}

// The text of the labels, if the question is false in them.
fn failure_of(
    alloc: Global,
    srp: &Srp,
    question: &Question,
    labels: &SharedLabels,
    shows: bool,
) -> Result<Option<Vec<u8>>, NoMemory>
    requires stable { IsStable srp.now labels.now }
    requires asked { IsAskedOf srp.now question.now }
    ensures { IfOk result (λ failure. MatchOption failure (IsTrueIn question.now srp.now labels.now) (λ text. IsFailure srp.now question.now shows text.items)) }
{
    if is_true(alloc, srp, labels, question)? {
        return Ok(None);
    }
    let text = text_of(alloc, srp, labels, shows)?;
    Ok(Some(text))
}

impl<'a> Visitor for Asker<'a> {
    type Task = (&'a Question, bool);

    ghost task = { λ v. (v.question, v.shows) };

    ghost problem = { λ v. v.srp.now };

    ghost Saw = { λ v found. HasAsked v.srp.now v.question.now v.shows v.some v.failed found };

    ghost wants = { λ v. wants_more v.failed };

    fn see(&mut self, labels: &SharedLabels) -> Result<(), NoMemory> {
        let failure = failure_of(self.alloc, self.srp, self.question, labels, self.shows)?;
        self.some = true;
        if let Some(text) = failure {
            self.failed = Some(text);
        }
        Ok(())
    }

    fn wants_more(&self) -> bool {
        self.failed.is_none()
    }
}
