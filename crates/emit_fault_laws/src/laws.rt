//! The law that the network of the groups has no fault of meaning.
ghost use Rattle.emit_fault_laws.specs.Laws.{EmittedIsFaultless};

/// No fault of any kind stands in the meaning of the network of the groups of a plan.
pub fn emitted_is_faultless()
    ensures { EmittedIsFaultless }
{
    abstract_net::laws::quotient_carries();
    emit_form_laws::laws::no_more_groups();
    emit_form_laws::laws::no_more_links();
    emit_form_laws::laws::few_links();
    net_topology::laws::few_sessions();
    cfg_check::laws::few_communities();
    line_number_laws::laws::few_communities_pass();
}
