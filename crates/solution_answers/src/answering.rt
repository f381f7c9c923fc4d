//! The answer to a question about a problem.

ghost use Rattle.std.specs.Prelude.{◌≡◌, IfOk, string_bytes, if◌then◌else◌};
ghost use Rattle.srp_questions.specs.Questions.{IsAskedOf};
ghost use Rattle.srp_questions.specs.declared.verdict.Verdict.TheVariants.{Yes, NoSolution};
ghost use Rattle.solution_answers.specs.Solved.{IsSolved};
ghost use Rattle.solution_answers.specs.Verdicts.{answer_line, difference_word, is_yes, tie_words, tied_words, verdict_word};

use crate::seeing::Asker;
use answer_kit::router_name;
use base_kit::NoMemory;
use solution_search::{Difference, Ending, Tie, search};
use srp_core::Srp;
use srp_questions::laws::keys_decide;
use srp_questions::{Question, Verdict};
use std::alloc::{AllocError, Global};

/// The answer to a question, the tie that it hangs on, and the text of labels that show a `no`.
#[derive(Drop)]
pub struct Answer {
    pub verdict: Verdict,
    pub tie: Option<Tie>,
    pub shown: Vec<u8>,
}

// What is true in all solutions that were seen, by whether there were some.
fn verdict_of(some: bool) -> Verdict
    ensures { result ≡ (if some then Yes else NoSolution) }
{
    if some {
        Verdict::Yes
    } else {
        Verdict::NoSolution
    }
}

/// The answer to a question about a problem. If labels are to be shown, those behind a `no` are.
///
/// # Errors
/// Out of memory.
pub fn solved(
    alloc: Global,
    srp: &Srp,
    question: &Question,
    shows: bool,
) -> Result<Answer, NoMemory>
    requires { IsAskedOf srp.now question.now }
    ensures { IfOk result (IsSolved srp.now question.now shows) }
{
    keys_decide();
    let _known = srp.count();
    let mut asker = Asker {
        alloc,
        srp,
        question,
        shows,
        some: false,
        failed: None,
    };
    let ending = search(alloc, srp, &mut asker)?;
    let Asker { some, failed, .. } = asker;
    if let Some(shown) = failed {
        return Ok(Answer {
            verdict: Verdict::No,
            tie: None,
            shown,
        });
    }
    match ending {
        Ending::All { tie } => Ok(Answer {
            verdict: verdict_of(some),
            tie,
            shown: Vec::new(alloc),
        }),
        Ending::Stopped => unreachable!(),
    }
}

pub fn is_yes(verdict: Verdict) -> bool
    ensures { result ≡ is_yes verdict }
{
    match verdict {
        Verdict::Yes => true,
        Verdict::No => false,
        Verdict::NoSolution => false,
    }
}

pub fn verdict_word(verdict: Verdict) -> &'static str
    ensures { result.now ≡ verdict_word verdict }
{
    match verdict {
        Verdict::Yes => "yes",
        Verdict::No => "no",
        Verdict::NoSolution => "none",
    }
}

fn difference_word(by: Difference) -> &'static str
    ensures { result.now ≡ difference_word by }
{
    match by {
        Difference::Communities => "communities",
        Difference::Path => "path",
    }
}

fn tie_words(alloc: Global, srp: &Srp, tie: Tie) -> Result<String, AllocError>
    ensures { IfOk result (λ words. string_bytes words ≡ tie_words srp.now.names tie) }
{
    let name = router_name(srp, tie.router);
    let by = difference_word(tie.by);
    let words = format!(in alloc; " tied {name} {by}")?;
    Ok(words)
}

// The words that tell a tie, if one is reported.
fn tied_words(alloc: Global, srp: &Srp, tie: Option<Tie>) -> Result<String, AllocError>
    ensures { IfOk result (λ words. string_bytes words ≡ tied_words srp.now.names tie) }
{
    match tie {
        Some(tie) => tie_words(alloc, srp, tie),
        None => Ok(String::new(alloc)),
    }
}

/// The line of an answer.
#[tactic(auto, unfolding(crate::specs::Verdicts::answer_line))]
pub fn answer_line(
    alloc: Global,
    srp: &Srp,
    number: usize,
    verdict: Verdict,
    tie: Option<Tie>,
) -> Result<String, AllocError>
    ensures { IfOk result (λ line. string_bytes line ≡ answer_line srp.now.names number verdict tie) }
{
    let word = verdict_word(verdict);
    let tied = tied_words(alloc, srp, tie)?;
    let line = format!(in alloc; "class {number} {word}{tied}\n")?;
    Ok(line)
}
