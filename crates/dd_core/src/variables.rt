//! The variables of a diagram, and the communities that they stand for.

ghost use Rattle.std.specs.Prelude.{◌≡◌, ◌<◌, ◌≤◌, length, slice_index, true, MatchOption};
ghost use Rattle.base_kit.specs.Sets.{has};
ghost use Rattle.dd_core.specs.Restrict.{fixed, StandsAs};
ghost use Rattle.dd_core.specs.Sets.{has_others, test_of};

use base_kit::{Community, NumSet};

/// The place of a community in the universe.
pub fn place_of(universe: &NumSet, community: u32) -> usize
    requires { has universe.now community ≡ true }
    ensures inside { result < length universe.now }
    ensures there { slice_index universe.now result ≡ community }
{
    for (place, c) in universe.as_slice().iter().enumerate() {
        if *c == community {
            return place;
        }
    }
    unreachable!()
}

/// Whether the set has a community outside the universe.
fn any_outside(universe: &NumSet, set: &NumSet) -> bool
    ensures { result ≡ has_others universe.now set.now }
{
    set.as_slice().iter().any(|c| !universe.has(*c))
}

/// Whether the variable is true on the set.
pub fn is_true(universe: &NumSet, set: &NumSet, variable: usize) -> bool
    ensures { result ≡ test_of universe.now set.now variable }
{
    if variable < universe.as_slice().len() {
        set.has(universe.as_slice()[variable])
    } else {
        any_outside(universe, set)
    }
}

/// The community of a variable. `others` has none.
pub fn community_at(universe: &NumSet, variable: usize) -> Option<Community>
    ensures { MatchOption result (length universe.now ≤ variable) (λ c. StandsAs universe.now c.0 variable) }
{
    if variable >= universe.as_slice().len() {
        return None;
    }
    Some(Community(universe.as_slice()[variable]))
}

/// The value that a variable has on every set with the communities of `present` and without those of
/// `absent`.
pub fn fixed(universe: &NumSet, present: &NumSet, absent: &NumSet, variable: usize) -> Option<bool>
    ensures { result ≡ fixed universe.now present.now absent.now variable }
{
    if variable >= universe.as_slice().len() {
        return None;
    }
    let community = universe.as_slice()[variable];
    if absent.has(community) {
        return Some(false);
    }
    if present.has(community) {
        return Some(true);
    }
    None
}
