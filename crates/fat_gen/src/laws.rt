//! What holds of every fat tree. A law is the contract of a function that does nothing: whoever needs
//! it calls it.
ghost use Rattle.fat_gen.specs.Laws.{CountsByHalf};

/// A fat tree of the size k has 5 k k / 4 switches and k k k / 2 cables.
pub fn counts_by_half()
    ensures { CountsByHalf }
{}
