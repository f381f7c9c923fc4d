//! Laws of answers. The functions do nothing: their contracts are the laws.
ghost use Rattle.answer_reports.specs.OneAnswer.{ReportAnswerIsOne, JsonAnswerIsOne, SummaryAnswerIsOne, TrialAnswerIsOne};

use class_laws::built_problem_is_one;

/// `report` has one answer to a network and the number of a class.
pub fn report_answer_is_one()
    ensures { ReportAnswerIsOne }
{
    built_problem_is_one();
}

/// The same holds of `json`.
pub fn json_answer_is_one()
    ensures { JsonAnswerIsOne }
{
    built_problem_is_one();
}

/// `summary` has one answer to a network.
pub fn summary_answer_is_one()
    ensures { SummaryAnswerIsOne }
{
    built_problem_is_one();
}

/// `trial` has one answer to a size.
pub fn trial_answer_is_one()
    ensures { TrialAnswerIsOne }
{
    built_problem_is_one();
}
