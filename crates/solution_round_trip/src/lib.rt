//! Laws of the text of a solution: what is printed of labels in range is read back, and the labels of
//! every stable solution are in range.
//!
//! The laws speak only of definitions. A caller that knows from contracts what these definitions give
//! calls the law that it needs.
#![tactic(auto)]

ghost use Rattle.solution_round_trip.specs.Laws.{PrintedSolutionIsReadBack, StableIsInRange, StableOfGroupsIsInRange};

/// What is printed of labels in range, for routers with names of their own, is read as these labels.
pub fn printed_is_read_back()
    ensures { PrintedSolutionIsReadBack }
{}

/// The labels of every stable solution of the problem of a network that a text gives are in range.
pub fn stable_is_in_range()
    ensures { StableIsInRange }
{}

/// So are those of every stable solution of the problem of its groups.
pub fn stable_of_groups_is_in_range()
    ensures { StableOfGroupsIsInRange }
{}
