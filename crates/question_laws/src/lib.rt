//! What holds of questions about a problem, and of the answers to them.
//!
//! The quotient of a problem gives the answers for it, and answers are kept where links are lost that are spare. Each
//! law is the contract of a function that does nothing: whoever needs one calls it.
#![tactic(auto)]

ghost use Rattle.question_laws.specs.Kept.{SpareLinksKeepAnswers};
ghost use Rattle.question_laws.specs.Small.{SmallAnswersForLarge};

use asking_laws::{none_becomes_lone, one_exists, solutions_are_one, spare_links_keep_keys};
use srp_core::laws::{from_quotient, to_quotient};

/// The answer for a problem is that for its quotient, where the way that is asked about is whole groups.
pub fn small_answers_for_large()
    ensures { SmallAnswersForLarge }
{
    to_quotient();
    from_quotient();
}

/// Without links that are spare answers are kept.
pub fn spare_links_keep_answers()
    ensures { SpareLinksKeepAnswers }
{
    none_becomes_lone();
    one_exists();
    solutions_are_one();
    spare_links_keep_keys();
}
