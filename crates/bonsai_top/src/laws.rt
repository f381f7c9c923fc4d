//! Laws of outcomes. The functions do nothing: their contracts are the laws.

ghost use Rattle.bonsai_top.specs.Headline.{DoneIsHeadline};
ghost use Rattle.bonsai_top.specs.OneOutcome.{OutcomeIsOne};
ghost use Rattle.bonsai_top.specs.declared.command.ClassCommand.TheVariants as on_class;

/// The words allow only one outcome, if the files that the command reads are known. The exception is
/// `certify`, which may choose the certificate.
pub fn outcome_is_one()
    ensures { OutcomeIsOne }
{
    answer_groups::laws::groups_answer_is_one();
    answer_groups::laws::compress_answer_is_one();
    answer_groups::laws::canon_answer_is_one();
    answer_solutions::laws::check_answer_is_one();
    answer_solutions::laws::fold_answer_is_one();
    answer_solutions::laws::lift_answer_is_one();
    answer_certificates::laws::verify_answer_is_one();
    answer_runs::laws::run_answer_is_one();
    answer_runs::laws::reach_answer_is_one();
    answer_reports::laws::report_answer_is_one();
    answer_reports::laws::json_answer_is_one();
    answer_reports::laws::summary_answer_is_one();
    answer_reports::laws::trial_answer_is_one();
}

/// If an outcome of `compress` or `canon` is done over a file that is known, its bytes are read as the
/// compressed network.
pub fn done_is_headline()
    ensures compress { DoneIsHeadline on_class.Compress }
    ensures canon { DoneIsHeadline on_class.Canon }
{
    compress_laws::laws::plan_compresses();
    compress_laws::laws::fitting_plan_compresses();
    answer_groups::laws::canonical_fits();
}
