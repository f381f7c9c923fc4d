//! Laws of the networks that some text gives.
//!
//! If some text gives a network, as is known of each checked one, the network has the form that the
//! grammar of lines demands. A caller that has such a network calls the law that it needs; it does not
//! need the text.
#![tactic(auto)]

ghost use Rattle.given_laws.specs.Laws.{GivenCostsArePositive, GivenIsWellFormed, GivenLinksAreInOrder, GivenPlacesAreInOrder, GivenRoutersAreWellFormed};

/// A network that a text gives is as the grammar has it: names are names, numbers lie in their ranges, what
/// may stand once stands once, and entries ascend.
pub fn given_is_well_formed()
    ensures { GivenIsWellFormed }
{}

/// Each router of such a network is as the grammar has it.
pub fn given_routers_are_well_formed()
    ensures { GivenRoutersAreWellFormed }
{}

/// The cost of an interface is at least 1, whether a line gives it or it follows from the type.
pub fn given_costs_are_positive()
    ensures { GivenCostsArePositive }
{}

/// The interfaces of such a network stand in the order of their lines, router by router, and so do their
/// addresses and the neighbours; there are at most 1,000,000 interfaces and as many neighbours.
pub fn given_places_are_in_order()
    ensures { GivenPlacesAreInOrder }
{}

/// The links of such a network ascend by the pairs of the lines of their ends, the lesser line first: sessions
/// by `remote-as` lines, adjacencies by `ip address` lines. The unmatched neighbours ascend by their
/// `remote-as` lines.
pub fn given_links_are_in_order()
    ensures { GivenLinksAreInOrder }
{}
