//! What holds of canonical lists. Each law is the contract of a function that does nothing: whoever needs
//! one calls it.
ghost use Rattle.canon_policy.specs.Exists.{EachHasCanonical};
ghost use Rattle.canon_policy.specs.Laws.{EqualFunctionsHaveEqualLists, UniverseDoesNotMatter, AlikeActsAreWrittenAlike, CanonicalListsImportAlike, EqualListsMeanEqualFunctions};

/// Functions that import every set of communities alike have equal canonical lists.
pub fn equal_functions_have_equal_lists()
    ensures { EqualFunctionsHaveEqualLists }
{}

/// Functions that import every set of communities alike have equal canonical lists, whatever universes the
/// lists are made over, if each function is uniform over its own.
pub fn universe_does_not_matter()
    ensures { UniverseDoesNotMatter }
{}

/// What is written for an edge depends only on what it imports: acts that act alike, also acts of two
/// networks, have equal canonical acts, or neither has one.
pub fn alike_acts_are_written_alike()
    ensures { AlikeActsAreWrittenAlike }
{}

/// The canonical lists of a function import every set of communities as it does.
pub fn canonical_lists_import_alike()
    ensures { CanonicalListsImportAlike }
{}

/// Functions with equal canonical lists import every set of communities alike.
pub fn equal_lists_mean_equal_functions()
    ensures { EqualListsMeanEqualFunctions }
{}

/// Each problem has the problem with the canonical acts of its edges, or a first edge that has none.
pub fn each_has_canonical()
    ensures { EachHasCanonical }
{}
