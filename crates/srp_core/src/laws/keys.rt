//! What holds of the keys by which routes are compared.
ghost use Rattle.std.specs.Prelude.{◌≡◌, ◌↔◌, ◌&&◌, ℕ, List};
ghost use Rattle.std.specs.Cmp.{IsTotalOrder};
ghost use Rattle.std.specs.declared.cmp.Ordering.TheVariants.{Equal};
ghost use Rattle.srp_core.specs.declared.route.Route.{Route};
ghost use Rattle.srp_core.specs.Problem.{Problem, is_lone_number, key_of, IsProblem};
ghost use Rattle.srp_core.specs.Quotient.{IsAdmissible, IsQuotient};
ghost use Rattle.srp_core.specs.Routes.{preference_of, size_of, path_of, comms_of, is_on, Key, compare_keys};

/// Keys stand in one total order, in which equal means the same.
pub fn order()
    ensures total { IsTotalOrder compare_keys }
    ensures equal { (a b : Key) → (compare_keys a b ≡ Equal) ↔ (a ≡ b) }
{}

/// Routes of two problems have equal keys exactly if they have one preference, one size, the same
/// communities, and the same lone numbers on their paths.
pub fn across_problems()
    ensures same { (first second : Problem) (r s : Route) → preference_of r ≡ preference_of s → size_of r ≡ size_of s → comms_of r ≡ comms_of s
        → ((n : ℕ) → (is_lone_number first n && is_on n (path_of r)) ≡ (is_lone_number second n && is_on n (path_of s))) → key_of first r ≡ key_of second s }
    ensures lone { (first second : Problem) (r s : Route) → key_of first r ≡ key_of second s
        → (n : ℕ) → (is_lone_number first n && is_on n (path_of r)) ≡ (is_lone_number second n && is_on n (path_of s)) }
    ensures others { (first second : Problem) (r s : Route) → key_of first r ≡ key_of second s → (preference_of r ≡ preference_of s) × (size_of r ≡ size_of s) × (comms_of r ≡ comms_of s) }
{}

/// A route has one key in a problem and in its quotient by an admissible partition.
pub fn across_quotients()
    ensures { (problem small : Problem) (groups : List ℕ) → IsProblem problem → IsProblem small → IsAdmissible problem groups → IsQuotient problem groups small → (route : Route) → key_of problem route ≡ key_of small route }
{}
