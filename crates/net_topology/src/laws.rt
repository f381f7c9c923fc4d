//! Laws of the links of networks in which no fault stands.

ghost use Rattle.net_topology.specs.Laws.{FewLinks, FewSessions};

/// A well-formed network in which no fault stands has at most half as many sessions as neighbour lines.
pub fn few_sessions()
    ensures { FewSessions }
{}

/// Such a network has at most 1,048,576 links.
pub fn few_links()
    ensures { FewLinks }
{}
