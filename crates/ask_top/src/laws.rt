//! Laws of outcomes. The functions do nothing: their contracts are the laws.

ghost use Rattle.ask_top.specs.OneOutcome.{AskCountIsOne, AskEndingIsOne, AskOutcomeIsOne};

/// The words allow only one outcome over files that are known, except for the tie that is reported with an answer, the labels
/// behind `no`, and the texts of solutions, of which the number is one.
pub fn outcome_is_one()
    ensures { AskOutcomeIsOne }
{}

/// They allow only one ending, and one line on `err`.
pub fn ending_is_one()
    ensures { AskEndingIsOne }
{}

/// Of `count` they allow only one outcome.
pub fn count_is_one()
    ensures { AskCountIsOne }
{}
