//! Laws of every network that equals the network of the groups except for line numbers.

ghost use Rattle.config_emit.specs.Laws.{EmittedIsNoLarger, EmittedStandsForGroups};
ghost use Rattle.compress_laws.specs.EmittedLinks.{EmittedHasPlannedLinks};

/// The links of such a network are those of the plan, in order.
pub fn emitted_has_planned_links()
    ensures { EmittedHasPlannedLinks }
{
    emit_fault_laws::laws::emitted_is_faultless();
    emit_link_laws::emitted_links();
    line_number_laws::laws::links_aside();
}

/// Such a network has no more routers and no more links than the network that was read.
pub fn emitted_is_no_larger()
    ensures { EmittedIsNoLarger }
{
    emit_form_laws::laws::no_more_groups();
    emit_form_laws::laws::no_more_links();
    emitted_has_planned_links();
}

/// No fault of meaning stands in such a network, and its problem, for every prefix of the class, is that of
/// the groups.
pub fn emitted_stands_for_groups()
    ensures { EmittedStandsForGroups }
{
    emit_fault_laws::laws::emitted_is_faultless();
    emit_problem_laws::laws::emitted_has_problem();
    line_number_laws::laws::faults_aside();
    line_number_laws::laws::protocol_aside();
    line_number_laws::laws::problem_aside();
}
