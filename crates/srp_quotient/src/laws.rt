//! What holds of the problem of the groups. Each law is the contract of a function that does nothing:
//! whoever needs one calls it.
ghost use Rattle.srp_quotient.specs.Laws.{QuotientIsProblem, QuotientIsQuotient};

/// The problem of the groups is the quotient of the problem by an admissible partition.
pub fn quotient_is_quotient()
    ensures { QuotientIsQuotient }
{}

/// The problem of the groups keeps the rules of a problem, where there are fewer than 2^31 links
/// between groups.
pub fn quotient_is_problem()
    ensures { QuotientIsProblem }
{
    srp_core::laws::quotient_is_problem();
}
