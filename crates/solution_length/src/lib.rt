//! How long the text of a stable solution is at most.
//!
//! The laws speak only of definitions. A caller that knows from contracts what these definitions give
//! calls the law that it needs.
#![tactic(auto)]

ghost use Rattle.solution_length.specs.Laws.{StableTextIsShort, TextOfGroupsIsShort};

use solution_round_trip::{stable_is_in_range, stable_of_groups_is_in_range};

/// The printed labels of every stable solution of the problem of a network that is read fit a solution file.
pub fn stable_text_is_short()
    ensures { StableTextIsShort }
{
    stable_is_in_range();
}

/// So do those of every stable solution of the problem of its groups.
pub fn text_of_groups_is_short()
    ensures { TextOfGroupsIsShort }
{
    stable_of_groups_is_in_range();
}
