//! A question about a class where something more is down.

ghost use Rattle.std.specs.Prelude.{◌≡◌, ◌<◌, true, false, IfOk, length, slice_index_or, slice_set};
ghost use Rattle.srp_core.specs.Without.{marked_down};
ghost use Rattle.ask_classes.specs.Failing.{IsTried, Loss};
ghost use Rattle.ask_classes.specs.Scenes.{IsAsking};
ghost use Rattle.ask_classes.specs.Tries.{trial_of};

use crate::scene::{Problems, Scene};
use ask_names::{Named, question};
use ask_words::AskedOf;
use base_kit::NoMemory;
use solution_answers::{Answer, solved};
use srp_without::without;
use std::alloc::Global;

/// A question about the problems of a class, and the routers that it names.
#[derive(Drop)]
pub(crate) struct Asking<'a> {
    pub(crate) scene: &'a Scene<'a>,
    pub(crate) problems: &'a Problems<'a>,
    pub(crate) asks: &'a AskedOf,
    pub(crate) named: &'a Named,
}

impl<'a> Asking<'a> {
    /// The answer where these routers and links are down.
    pub(crate) fn without(
        &self,
        alloc: Global,
        routers: &[bool],
        links: &[bool],
    ) -> Result<Answer, NoMemory>
        requires { IsAsking self.now }
        ensures { IfOk result (λ answer. (loss : Loss) → loss.down ≡ marked_down routers.now links.now → IsTried self.now.problems.now.whole.now self.now.asks.now loss (trial_of answer)) }
    {
        let whole = self.problems.whole;
        let _known = whole.count();
        let other = without(alloc, whole, self.problems.failures, routers, links)?;
        let question = question(alloc, self.asks, self.named, routers)?;
        solved(alloc, &other, &question, false)
    }
}

/// Whether a place is marked. Behind the end nothing is.
pub(crate) fn is_marked(marks: &[bool], place: usize) -> bool
    ensures { result ≡ slice_index_or marks.now place false }
{
    marks.get(place).copied().unwrap_or(false)
}

/// The marks, with one more.
pub(crate) fn with_mark(alloc: Global, marks: &[bool], place: usize) -> Result<Vec<bool>, NoMemory>
    requires { place < length marks.now }
    ensures { IfOk result (λ more. more.items ≡ slice_set marks.now place true) }
{
    let mut marks = Vec::from_slice(alloc, marks)?;
    marks[place] = true;
    Ok(marks)
}
