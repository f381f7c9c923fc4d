//! What the commands do together, as laws over the words that a person types.
//!
//! A person compresses a network, asks the small network and carries the answer back. Each law relates
//! the outcome of one command to that of another, for all words and for all files whose contents are
//! known. A law is the contract of a function that does nothing: whoever needs one calls it.
#![tactic(auto)]

ghost use Rattle.workflow_laws.specs.Again.{CompressedAgain};
ghost use Rattle.workflow_laws.specs.CarriedDown.{CheckIsFold, WhatIsFoldedIsLifted, WhatIsFoldedIsStableBelow};
ghost use Rattle.workflow_laws.specs.CarriedUp.{CheckBelowIsLift, WhatIsLiftedIsStable};
ghost use Rattle.workflow_laws.specs.Certificates.{WhatIsCertifiedIsVerified, WhatIsVerifiedNamesTheGroups};
ghost use Rattle.workflow_laws.specs.ClassKept.{ClassIsKept};
ghost use Rattle.workflow_laws.specs.Existence.{EachTextIsJudged, OutcomesAgree, ThereIsAnOutcome};
ghost use Rattle.workflow_laws.specs.Orders.{WhatIsReachedRests, WhatRestsIsStable};
ghost use Rattle.workflow_laws.specs.PrintedShort.{PrintedIsShort};
ghost use Rattle.workflow_laws.specs.Questions.{EachQuestionCarries, SmallAnswersForLarge};
ghost use Rattle.workflow_laws.specs.Written.{FittingTextHasProblemOfGroups};

use answer_certificates::laws::verify_answer_is_one;
use answer_groups::laws::canonical_fits;
use answer_solutions::laws::{fold_is_read_back, lift_is_read_back};
use bonsai_top::laws::outcome_is_one;
use canon_policy::laws::each_has_canonical;
use cfg_check::laws::faultless_is_accepted;
use class_laws::built_problem_is_one;
use compress_laws::emitted::emitted_stands_for_groups;
use compress_laws::laws::{built_fits, fitting_plan_compresses, fitting_plan_fits};
use emit_form_laws::laws::emitted_can_be_printed;
use existence_laws::{each_class_has_problem, each_graph_has_certificate, each_problem_has_graph};
use given_laws::given_is_well_formed;
use net_topology::laws::few_links;
use quotient_laws::{
    AsksOfGroups, each_has_groups, group_question_carries, groups_have_no_more_links,
    pictures_agree, questions_carry, quotient_is_smallest,
};
use reading_laws::{text_fault_decides, what_is_read_is_well};
use route_run::laws::{one_order, rest};
use solution_length::{stable_text_is_short, text_of_groups_is_short};
use solution_round_trip::{printed_is_read_back, stable_is_in_range};
use srp_core::laws::{
    equal_keys, folds, lifts, lifts_and_folds_exist, listed_candidates, ospf_folds, ospf_lifts,
};
use srp_quotient::laws::{quotient_is_problem, quotient_is_quotient};

/// The text of a plan with a problem that fits the class, as `compress` and `canon` write it, is read as a
/// network that has the problem of the groups.
pub fn fitting_text_has_problem_of_groups()
    ensures { FittingTextHasProblemOfGroups }
{
    fitting_plan_fits();
    emitted_can_be_printed();
    emitted_stands_for_groups();
    cfg_round_trip::printed_is_read_back();
    faultless_is_accepted();
}

/// What `compress` or `canon` writes has a class with the prefixes of the class that it was written for, and in BGP no other.
pub fn class_is_kept()
    ensures { ClassIsKept }
{
    what_is_read_is_well();
    built_fits();
    canonical_fits();
    fitting_text_has_problem_of_groups();
    fitting_plan_fits();
    emitted_can_be_printed();
    cfg_round_trip::printed_is_read_back();
    quotient_is_quotient();
}

/// `check` of the small network and `lift` of the large one have the same outcome, except for what is
/// written if the work is done.
pub fn check_below_is_lift()
    ensures { CheckBelowIsLift }
{
    what_is_read_is_well();
    built_problem_is_one();
    built_fits();
    canonical_fits();
    fitting_text_has_problem_of_groups();
    quotient_is_quotient();
}

/// What is written of stable labels is no longer than a solution may be, and an order no longer than a schedule.
pub fn printed_is_short()
    ensures { PrintedIsShort }
{
    what_is_read_is_well();
    given_is_well_formed();
    quotient_is_quotient();
    stable_text_is_short();
    text_of_groups_is_short();
}

/// What `lift` writes is stable in the large network.
pub fn what_is_lifted_is_stable()
    ensures { WhatIsLiftedIsStable }
{
    what_is_read_is_well();
    lift_is_read_back();
    printed_is_short();
}

/// `check` and `fold` have the same outcome, except for what is written if the work is done.
pub fn check_is_fold()
    ensures { CheckIsFold }
{}

/// What `fold` writes is stable in the small network.
pub fn what_is_folded_is_stable_below()
    ensures { WhatIsFoldedIsStableBelow }
{
    what_is_read_is_well();
    built_problem_is_one();
    built_fits();
    canonical_fits();
    fitting_text_has_problem_of_groups();
    quotient_is_quotient();
    fold_is_read_back();
    printed_is_short();
}

/// `lift` takes what `fold` writes.
pub fn what_is_folded_is_lifted()
    ensures { WhatIsFoldedIsLifted }
{
    what_is_read_is_well();
    built_problem_is_one();
    fold_is_read_back();
    printed_is_short();
}

/// `verify` says yes to what `certify` writes.
pub fn what_is_certified_is_verified()
    ensures { WhatIsCertifiedIsVerified }
{
    what_is_read_is_well();
    answer_certificates::laws::what_is_certified_is_verified();
    verify_answer_is_one();
}

/// A text to which `verify` says yes names the groups that `groups` prints.
pub fn what_is_verified_names_the_groups()
    ensures { WhatIsVerifiedNamesTheGroups }
{
    answer_certificates::laws::what_is_verified_names_the_groups();
}

/// `run` of the order that `reach` writes rests in stable labels with the keys of the solution.
pub fn what_is_reached_rests()
    ensures { WhatIsReachedRests }
{
    what_is_read_is_well();
    given_is_well_formed();
}

/// What `run` writes behind the first line `rest` is stable under `check`.
pub fn what_rests_is_stable()
    ensures { WhatRestsIsStable }
{
    what_is_read_is_well();
    given_is_well_formed();
    printed_is_read_back();
    stable_is_in_range();
    stable_text_is_short();
}

/// The groups of the small network are its routers: compressed again it gets no smaller.
pub fn compressed_again()
    ensures { CompressedAgain }
{
    what_is_read_is_well();
    built_problem_is_one();
    built_fits();
    canonical_fits();
    fitting_text_has_problem_of_groups();
    quotient_is_quotient();
    quotient_is_smallest();
}

/// Each stable solution of either network shows the same of the groups as some stable solution of the other one, and
/// reachability, path lengths and waypoints have one answer in both.
pub fn small_answers_for_large()
    ensures { SmallAnswersForLarge }
{
    what_is_read_is_well();
    built_fits();
    canonical_fits();
    fitting_plan_compresses();
    pictures_agree();
    questions_carry();
}

/// A question about the keys that groups hold and about the groups to which they forward: it holds of
/// every stable solution of the one network exactly if it holds of every one of the other, and of some
/// exactly if it holds of some.
pub fn each_question_carries<Q: AsksOfGroups>()
    ensures { EachQuestionCarries Q.asks }
{
    small_answers_for_large();
    group_question_carries::<Q>();
}

/// Two outcomes that words allow are equal, or they are two certificates.
pub fn outcomes_agree()
    ensures { OutcomesAgree }
{
    outcome_is_one();
}

/// Each text is read, or refused for a line and a kind.
pub fn each_text_is_judged()
    ensures { EachTextIsJudged }
{
    text_fault_decides();
}

/// All words have an outcome, whatever the files hold.
pub fn there_is_an_outcome()
    ensures { ThereIsAnOutcome }
{
    what_is_read_is_well();
    each_text_is_judged();
    given_is_well_formed();
    each_class_has_problem();
    each_problem_has_graph();
    each_graph_has_certificate();
    each_has_canonical();
    built_fits();
    each_has_groups();
    few_links();
    groups_have_no_more_links();
    quotient_is_problem();
    quotient_is_quotient();
    listed_candidates();
    lifts_and_folds_exist();
    folds();
    lifts();
    ospf_folds();
    ospf_lifts();
    equal_keys();
    one_order();
    rest();
}
