//! The law of what is written.
ghost use Rattle.compress_laws.specs.Laws.{TextCompresses, BuiltFits, FittingPlanFits, FittingPlanCompresses, PlanFits, PlanCompresses, TextHasProblemOfGroups};

/// The text of a plan compresses the network, if its groups are the coarsest.
pub fn text_compresses()
    ensures { TextCompresses }
{
    emit_form_laws::laws::emitted_can_be_printed();
    crate::emitted::emitted_has_planned_links();
    crate::emitted::emitted_is_no_larger();
    crate::emitted::emitted_stands_for_groups();
    cfg_round_trip::printed_is_read_back();
    cfg_round_trip::members_are_read_back();
    cfg_check::laws::faultless_is_accepted();
    srp_quotient::laws::quotient_is_quotient();
    srp_core::laws::to_quotient();
    srp_core::laws::from_quotient();
    srp_core::laws::alike::problems_of_one_prefix();
    srp_core::laws::alike::partitions();
    srp_core::laws::alike::quotients();
}

/// The problem that is built for a class fits it.
pub fn built_fits()
    ensures { BuiltFits }
{
    given_laws::given_is_well_formed();
    srp_build::laws::acts_print();
    srp_build::laws::acts_stay_within();
}

/// A plan with a problem that fits the class fits together, if no prefix of the class meets the
/// addresses of the links.
pub fn fitting_plan_fits()
    ensures { FittingPlanFits }
{
    given_laws::given_is_well_formed();
}

/// The text of a plan with such a problem compresses the network, if the text is not too long.
pub fn fitting_plan_compresses()
    ensures { FittingPlanCompresses }
{
    fitting_plan_fits();
    text_compresses();
}

/// The plan of a class fits together.
pub fn plan_fits()
    ensures { PlanFits }
{
    built_fits();
    fitting_plan_fits();
}

/// The text of the plan of a class compresses the network, if the text is not too long.
pub fn plan_compresses()
    ensures { PlanCompresses }
{
    built_fits();
    fitting_plan_compresses();
}

/// The text of the plan of a class, if it is not too long, is read as a network that has the problem of
/// the groups.
pub fn text_has_problem_of_groups()
    ensures { TextHasProblemOfGroups }
{
    plan_fits();
    emit_form_laws::laws::emitted_can_be_printed();
    crate::emitted::emitted_stands_for_groups();
    cfg_round_trip::printed_is_read_back();
    cfg_check::laws::faultless_is_accepted();
}
