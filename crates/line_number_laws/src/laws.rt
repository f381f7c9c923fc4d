//! What does not depend on line numbers.
ghost use Rattle.line_number_laws.specs.Laws.{FaultsAside, FewCommunitiesPass, LinksAside, ProblemAside, ProtocolAside};

/// The links of a network do not depend on line numbers.
pub fn links_aside()
    ensures { LinksAside }
{}

/// A problem of a network and a prefix is also a problem of every network that is the same except for
/// line numbers, if both have one protocol. This premise is needed: a router with processes of both
/// protocols has the protocol of the lesser line.
pub fn problem_aside()
    ensures { ProblemAside }
{}

/// If a network has no fault of meaning, a network that is the same except for line numbers has none
/// either.
pub fn faults_aside()
    ensures { FaultsAside }
{
    cfg_check::laws::few_communities();
}

/// If the lines of a network name at most 1,024 communities, no line has one too many, whatever the line
/// numbers are.
pub fn few_communities_pass()
    ensures { FewCommunitiesPass }
{}

/// A network that is the same as one without faults, except for line numbers, has the same protocol.
pub fn protocol_aside()
    ensures { ProtocolAside }
{}
