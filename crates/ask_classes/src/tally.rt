//! How many trials failed.

ghost use Rattle.std.specs.Prelude.{◌≡◌, ◌<◌, ◌≤◌, ◌^◌, [], IfOk, List, string_bytes};
ghost use Rattle.ask_classes.specs.Failing.{failing_line, Trial};
ghost use Rattle.ask_classes.specs.Tries.{IsTally, trial_of, with_trial};

use solution_answers::{Answer, is_yes};
use std::alloc::{AllocError, Global};

/// How many trials there were, how many of them failed, and how many hang on a tie.
#[derive(Clone, Copy, Debug, PartialEq, Eq)]
pub(crate) struct Tally {
    pub(crate) tried: usize,
    pub(crate) failed: usize,
    pub(crate) tied: usize,
}

impl Tally {
    /// No trials.
    pub(crate) fn none() -> Tally
        ensures { IsTally [] result }
    {
        Tally {
            tried: 0,
            failed: 0,
            tied: 0,
        }
    }

    /// One more trial.
    pub(crate) fn with(self, answer: &Answer) -> Tally
        requires tried { self.tried < 2 ^ 32 }
        requires failed { self.failed ≤ self.tried }
        requires tied { self.tied ≤ self.tried }
        ensures { result ≡ with_trial self (trial_of answer.now) }
    {
        let failed = if is_yes(answer.verdict) { 0 } else { 1 };
        let tied = if answer.tie.is_some() { 1 } else { 0 };
        Tally {
            tried: self.tried + 1,
            failed: self.failed + failed,
            tied: self.tied + tied,
        }
    }

    /// The last line of the trials of a class.
    pub(crate) fn line(self, alloc: Global, number: usize) -> Result<String, AllocError>
        ensures { IfOk result (λ line. (trials : List Trial) → IsTally trials self → string_bytes line ≡ failing_line number trials) }
    {
        let Tally {
            tried,
            failed,
            tied,
        } = self;
        if tied == 0 {
            let line = format!(in alloc; "class {number} failing {failed} of {tried}\n")?;
            return Ok(line);
        }
        let line = format!(in alloc; "class {number} failing {failed} of {tried} tied {tied}\n")?;
        Ok(line)
    }
}
