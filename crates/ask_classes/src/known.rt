//! Links without which the answer is known: where no router is lone, the loss of a link that is spare keeps it.

ghost use Rattle.std.specs.Prelude.{◌≡◌, [], IfOk, IfSome, None};
ghost use Rattle.srp_core.specs.Without.{marked_down};
ghost use Rattle.srp_questions.specs.Answers.{IsVerdict};
ghost use Rattle.srp_questions.specs.Questions.{IsTrueIn};
ghost use Rattle.ask_classes.specs.Known.{keeps_verdict, is_of_labels, tie_beside, trial_known, HasSpareLinks, KnowsTrials};
ghost use Rattle.ask_classes.specs.Scenes.{IsAsking};
ghost use Rattle.ask_classes.specs.Tries.{trial_of};
ghost use Rattle.ask_names.specs.Routers.{question_for};

use crate::asking::Asking;
use ask_words::AskedOf;
use base_kit::NoMemory;
use shared_routes::SharedLabels;
use solution_answers::Answer;
use solution_search::{Difference, Tie, Visitor, search};
use spare_links::laws::spare_links_keep_verdicts;
use spare_links::{SpareLinks, spare_links};
use srp_core::Srp;
use srp_questions::Verdict;
use std::alloc::Global;

/// Marks of the links without which the answer is known, its verdict, and the tie that it hangs on.
#[derive(Drop)]
pub(crate) struct Known {
    pub(crate) marks: Vec<bool>,
    pub(crate) verdict: Verdict,
    pub(crate) tie: Option<Tie>,
}

impl Known {
    // Nothing is known.
    fn nothing(alloc: Global, verdict: Verdict) -> Known
        ensures marks { result.marks.items ≡ [] }
    {
        Known {
            marks: Vec::new(alloc),
            verdict,
            tie: None,
        }
    }

    /// The answer that is known.
    pub(crate) fn answer(&self, alloc: Global) -> Answer
        ensures { trial_of result ≡ trial_known self.now }
    {
        Answer {
            verdict: self.verdict,
            tie: self.tie,
            shown: Vec::new(alloc),
        }
    }
}

fn is_of_labels(asks: &AskedOf) -> bool
    ensures { result ≡ is_of_labels asks.now }
{
    match asks {
        AskedOf::Route(_) | AskedOf::Isolated(_) => true,
        AskedOf::Hops(_, _) | AskedOf::Through(_, _) | AskedOf::Avoids(_, _) => false,
        AskedOf::Carries(_, _) | AskedOf::Lacks(_, _) => true,
    }
}

// Whether the verdict stays where links are lost that are spare.
fn is_kept(asks: &AskedOf, verdict: Verdict) -> bool
    ensures { result ≡ keeps_verdict asks.now verdict }
{
    match verdict {
        Verdict::Yes => true,
        Verdict::No => is_of_labels(asks),
        Verdict::NoSolution => false,
    }
}

// The tie that stands beside the verdict, where routes tie at that router.
fn tie_beside(verdict: Verdict, tied: Option<u32>) -> Option<Tie>
    ensures { result ≡ tie_beside verdict tied }
{
    match verdict {
        Verdict::No => None,
        Verdict::Yes | Verdict::NoSolution => match tied {
            None => None,
            Some(router) => Some(Tie {
                router,
                by: Difference::Communities,
            }),
        },
    }
}

// Is shown a solution, and marks the links that are spare under it.
#[derive(Drop)]
struct Marker<'a> {
    alloc: Global,
    srp: &'a Srp,
    links: usize,
    spare: Option<SpareLinks>,
}

impl<'a> Visitor for Marker<'a> {
    ghost use Rattle.std.specs.Prelude.{false, IfSome};
    ghost use Rattle.ask_classes.specs.Known.{HasSpareLinks};

    type Task = ();

    ghost task = { λ _. tt };

    ghost problem = { λ v. v.srp.now };

    ghost Saw = { λ v found. IfSome v.spare (λ spare. HasSpareLinks v.srp.now spare.marks.items spare.tied) };

    ghost wants = { λ v. false };

    fn see(&mut self, labels: &SharedLabels) -> Result<(), NoMemory> {
        let plain = labels.plain(self.alloc)?;
        self.spare = spare_links(self.alloc, self.srp, &plain, self.links)?;
        Ok(())
    }

    fn wants_more(&self) -> bool {
        false
    }
}

// Marks the links that are spare under a solution, if they can be found.
fn spare_found(alloc: Global, srp: &Srp, links: usize) -> Result<Option<SpareLinks>, NoMemory>
    ensures { IfOk result (λ found. IfSome found (λ spare. HasSpareLinks srp.now spare.marks.items spare.tied)) }
{
    if srp.lone().contains(&true) {
        return Ok(None);
    }
    let mut marker = Marker {
        alloc,
        srp,
        links,
        spare: None,
    };
    search(alloc, srp, &mut marker)?;
    let Marker { spare, .. } = marker;
    Ok(spare)
}

/// The links without which the answer is known, where the answer with them has this verdict.
///
/// # Errors
/// Out of memory.
pub(crate) fn known_of(alloc: Global, asking: &Asking, verdict: Verdict) -> Result<Known, NoMemory>
    requires asking { IsAsking asking.now }
    requires verdict { let asked = question_for asking.now.problems.now.whole.now.names (marked_down asking.now.scene.now.routers_down.now asking.now.scene.now.links_down.now) asking.now.asks.now
        in IsVerdict asking.now.problems.now.left.now (IsTrueIn asked asking.now.problems.now.left.now) verdict }
    ensures { IfOk result (KnowsTrials asking.now) }
{
    spare_links_keep_verdicts();
    if !is_kept(asking.asks, verdict) {
        return Ok(Known::nothing(alloc, verdict));
    }
    let links = asking.scene.links.len();
    match spare_found(alloc, asking.problems.left, links)? {
        Some(spare) => Ok(Known {
            marks: spare.marks,
            verdict,
            tie: tie_beside(verdict, spare.tied),
        }),
        None => Ok(Known::nothing(alloc, verdict)),
    }
}
