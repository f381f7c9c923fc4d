//! What holds of the links between groups. Each law is the contract of a function that does nothing:
//! whoever needs one calls it.
ghost use Rattle.abstract_net.specs.Links.{QuotientCarries, NoMoreLinks};

/// The links carry exactly the acts of the edges between different groups, each into the group of its
/// importer.
pub fn quotient_carries()
    ensures { QuotientCarries }
{}

/// If each link of the network joins at most two groups, with one edge between them in each direction,
/// there are no more links between groups than in the network.
pub fn no_more_links()
    ensures { NoMoreLinks }
{}
