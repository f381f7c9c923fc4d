//! What holds of every store. Each law is the contract of a function that does nothing: whoever needs one
//! calls it.
ghost use Rattle.std.specs.Prelude.{◌≡◌, ◌<◌, ℕ, List, length};
ghost use Rattle.base_kit.specs.Sets.{IsAscending};
ghost use Rattle.dd_core.specs.Sets.{Shown, IsShown, Grows, value_of};

/// While a store grows, and also if memory runs out, every old node keeps its value on every set.
pub fn values_are_kept()
    ensures { (old new : Shown) (set : List ℕ) (node : ℕ) → Grows old new → node < length old.nodes → value_of new set node ≡ value_of old set node }
{}

/// A store that grows and grows again has grown.
pub fn growth_adds_up()
    ensures { (old mid new : Shown) → Grows old mid → Grows mid new → Grows old new }
{}

/// Nodes of one store that have one value on every set have one number.
pub fn equal_values_have_one_number()
    ensures { (shown : Shown) (a b : ℕ) → IsShown shown → a < length shown.nodes → b < length shown.nodes → ((set : List ℕ) → IsAscending set → value_of shown set a ≡ value_of shown set b) → a ≡ b }
{}
