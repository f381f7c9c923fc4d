//! What the acts of a problem accept.

ghost use Rattle.std.specs.Prelude.{◌≡◌, ℕ, ◌<◌, IfOk, length};
ghost use Rattle.std.specs.List.{AllByRecursion, list_any};
ghost use Rattle.dd_core.specs.Sets.{Grows};
ghost use Rattle.srp_core.specs.ActMaps.{IsActWithin};
ghost use Rattle.srp_without.specs.Accepting.{AreOfActs, Serves};

use crate::accepted::{Accepted, accepted_by};
use base_kit::NoMemory;
use dd_core::Store;
use srp_core::{Act, Srp};
use std::alloc::Global;
use std::marker::Model;

/// What is known of a problem before anything fails: what each of its acts accepts. Where no router is
/// lone nothing is known, and nothing is needed.
#[derive(Drop)]
pub struct Failures {
    accepted: Vec<Accepted>,
}

impl Model for Failures {
    ghost use Rattle.std.specs.Prelude.{List};
    ghost use Rattle.srp_without.specs.declared.accepted.Accepted.{Accepted};

    ghost Value = { List Accepted };

    ghost view = { λ f. f.accepted.items };
}

// Whether some mark is set.
pub fn has_mark(marks: &[bool]) -> bool
    ensures { result ≡ list_any (λ mark. mark) marks.now }
{
    marks.iter().any(|mark| *mark)
}

fn accepted_by_acts(
    alloc: Global,
    store: &mut Store,
    acts: &[Act],
) -> Result<Vec<Accepted>, NoMemory>
    requires { AllByRecursion (IsActWithin store.old.universe) acts.now }
    ensures grows { Grows store.old store.new }
    ensures accepted { IfOk result (λ accepted. AreOfActs acts.now accepted.items) }
{
    let mut accepted = Vec::new(alloc);
    for act in acts {
        accepted.push(accepted_by(alloc, store, act)?)?;
    }
    Ok(accepted)
}

impl Failures {
    /// What has to be known of the problem. Its maps name only communities of the store's universe. If memory runs
    /// out, the store may have more nodes.
    ///
    /// # Errors
    /// Out of memory.
    pub fn of(alloc: Global, store: &mut Store, problem: &Srp) -> Result<Failures, NoMemory>
        requires { AllByRecursion (IsActWithin store.old.universe) problem.now.acts }
        ensures grows { Grows store.old store.new }
        ensures serves { IfOk result (Serves problem.now) }
    {
        if !has_mark(problem.lone()) {
            return Ok(Failures {
                accepted: Vec::new(alloc),
            });
        }
        let accepted = accepted_by_acts(alloc, store, problem.acts())?;
        Ok(Failures { accepted })
    }

    /// What each act accepts.
    pub(crate) fn accepted(&self) -> &[Accepted]
        ensures { result.now ≡ self.now }
    {
        self.accepted.as_slice()
    }
}
