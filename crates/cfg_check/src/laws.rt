//! Laws of networks in which no fault stands.

ghost use Rattle.cfg_check.specs.Laws.{FaultlessIsAccepted, FewCommunities};

/// A network in which no fault stands is accepted.
pub fn faultless_is_accepted()
    ensures { FaultlessIsAccepted }
{}

/// The lines of such a network name at most 1,024 communities.
pub fn few_communities()
    ensures { FewCommunities }
{}
