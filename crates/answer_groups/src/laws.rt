//! Laws of answers. The functions do nothing: their contracts are the laws.

ghost use Rattle.answer_groups.specs.CanonLaws.{AlikeEdgesAcrossNetworks, AlikeEdgesHaveOneAct, CanonicalFits, MapsAreWrittenAlike};
ghost use Rattle.answer_groups.specs.OneAnswer.{GroupsAnswerIsOne, CompressAnswerIsOne, CanonAnswerIsOne};

/// `groups` has one answer to a network and the number of a class.
pub fn groups_answer_is_one()
    ensures { GroupsAnswerIsOne }
{}

/// The same holds of `compress`.
pub fn compress_answer_is_one()
    ensures { CompressAnswerIsOne }
{}

/// The same holds of `canon`.
pub fn canon_answer_is_one()
    ensures { CanonAnswerIsOne }
{}

/// The problem with canonical acts fits its class, as the problem does that is built for the class.
pub fn canonical_fits()
    ensures { CanonicalFits }
{
    given_laws::given_is_well_formed();
    compress_laws::laws::built_fits();
    canon_policy::laws::each_has_canonical();
}

/// What `canon` writes for an edge depends only on what the edge imports, also across two networks.
pub fn alike_edges_have_one_act()
    ensures one { AlikeEdgesHaveOneAct }
    ensures across { AlikeEdgesAcrossNetworks }
{
    compress_laws::laws::built_fits();
    canon_policy::laws::equal_functions_have_equal_lists();
    canon_policy::laws::alike_acts_are_written_alike();
}

/// One map has equal lines at all routers, except for its name, the names of its lists and the AS numbers
/// that it puts before the path.
pub fn maps_are_written_alike()
    ensures { MapsAreWrittenAlike }
{}
