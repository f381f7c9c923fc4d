//! What holds of plain maps. Each law is the contract of a function that does nothing: whoever needs
//! one calls it.
ghost use Rattle.std.specs.Prelude.{◌≡◌, ℕ, true, List};
ghost use Rattle.route_maps.specs.Maps.{verdict};
ghost use Rattle.route_maps.specs.Same.{same_map};
ghost use Rattle.route_maps.specs.declared.plain.Plain.{Plain};

/// Maps that are the same except for names and line numbers have one verdict on every set of
/// communities.
pub fn same_map_says_the_same()
    ensures { (a b : Plain) (comms : List ℕ) → same_map a b ≡ true → verdict a.entries comms ≡ verdict b.entries comms }
{}
