//! Laws of answers. The functions do nothing: their contracts are the laws.

ghost use Rattle.answer_runs.specs.OneAnswer.{RunAnswerIsOne, ReachAnswerIsOne};

/// `run` has one answer to a network, the number of a class and a schedule that is known.
pub fn run_answer_is_one()
    ensures { RunAnswerIsOne }
{}

/// `reach` has one answer to a network, the number of a class and a solution that is known.
pub fn reach_answer_is_one()
    ensures { ReachAnswerIsOne }
{}
