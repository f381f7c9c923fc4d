//! Laws of the links of the network of the groups.
//!
//! The network that is written for the groups of a class has the links of the groups, in their order, and
//! each joins the interfaces or the neighbour lines that are written for it. Each law is the contract of a
//! function that does nothing: whoever needs one calls it.
#![tactic(auto)]

ghost use Rattle.emit_link_laws.specs.Laws.{EmittedLinks};

/// The links of the network of the groups are those of the plan, in order. In BGP this depends on the
/// network having no fault.
pub fn emitted_links()
    ensures { EmittedLinks }
{
    abstract_net::laws::quotient_carries();
}
