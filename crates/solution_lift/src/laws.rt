//! Laws of folding and lifting. The functions do nothing: their contracts are the laws.

ghost use Rattle.solution_lift.specs.Laws.{FoldingIsOne, LiftingIsOne};

/// Stable labels of a problem have one folding.
pub fn folding_is_one()
    ensures { FoldingIsOne }
{
    srp_core::laws::folds();
}

/// Stable labels of the problem of the groups have one lifting.
pub fn lifting_is_one()
    ensures { LiftingIsOne }
{
    srp_core::laws::lifts();
}
