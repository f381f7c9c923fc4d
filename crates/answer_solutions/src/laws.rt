//! Laws of answers. The functions do nothing: their contracts are the laws.

ghost use Rattle.answer_solutions.specs.OneAnswer.{CheckAnswerIsOne, FoldAnswerIsOne, LiftAnswerIsOne};
ghost use Rattle.answer_solutions.specs.ReadBack.{FoldIsReadBack, LiftIsReadBack};

use class_laws::built_problem_is_one;
use given_laws::given_is_well_formed;
use solution_lift::laws::{folding_is_one, lifting_is_one};
use solution_round_trip::{printed_is_read_back, stable_is_in_range, stable_of_groups_is_in_range};
use srp_quotient::laws::quotient_is_quotient;

/// `check` has one answer to a network, the number of a class and a solution that is known.
pub fn check_answer_is_one()
    ensures { CheckAnswerIsOne }
{}

/// The same holds of `fold`.
pub fn fold_answer_is_one()
    ensures { FoldAnswerIsOne }
{
    quotient_is_quotient();
    built_problem_is_one();
    folding_is_one();
}

/// The same holds of `lift`.
pub fn lift_answer_is_one()
    ensures { LiftAnswerIsOne }
{
    quotient_is_quotient();
    built_problem_is_one();
    lifting_is_one();
}

/// What `fold` writes is read as labels of the groups that are stable and correspond to the solution.
pub fn fold_is_read_back()
    ensures { FoldIsReadBack }
{
    quotient_is_quotient();
    given_is_well_formed();
    printed_is_read_back();
    stable_of_groups_is_in_range();
}

/// What `lift` writes is read as labels of the routers that are stable and correspond to the solution.
pub fn lift_is_read_back()
    ensures { LiftIsReadBack }
{
    quotient_is_quotient();
    given_is_well_formed();
    printed_is_read_back();
    stable_is_in_range();
}
