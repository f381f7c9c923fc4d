//! What holds of the problem of the network of the groups.
ghost use Rattle.emit_problem_laws.specs.Laws.{EmittedHasProblem};

/// If no fault stands in the network of the groups, its problem for every prefix of the class is that of
/// the groups.
pub fn emitted_has_problem()
    ensures { EmittedHasProblem }
{
    srp_quotient::laws::quotient_is_problem();
    emit_form_laws::laws::few_links();
    emit_origin_laws::laws::groups_originate();
    abstract_net::laws::quotient_carries();
    emit_map_laws::laws::sessions_import_acts();
    emit_link_laws::emitted_links();
}
