//! The loops that lift and fold labels of BGP: from no labels, router by router or group by group in the
//! order of the sizes of the labels asked for, to the labels that lifting or folding asks for.
ghost use Rattle.std.specs.Prelude.{◌≡◌, ℕ, ◌<◌, List, Option, Some, None, replicate, slice_set};
ghost use Rattle.srp_core.specs.declared.route.Route.{Route};
ghost use Rattle.srp_core.specs.Filling.{CanBeLifted, IsLiftedPart, IsNextToLift, CanBeFolded, IsFoldedPart, IsNextToFold};
ghost use Rattle.srp_core.specs.Lifts.{TakesFrom, GroupTakes, IsFirstOn, IsLift, IsFold};
ghost use Rattle.srp_core.specs.Problem.{Problem, count, initial};
ghost use Rattle.srp_core.specs.Quotient.{group_of};
ghost use Rattle.srp_core.specs.Routes.{path_of};
ghost use Rattle.srp_core.specs.Stability.{label};

/// Labels in which no router has a route are a part of what lifting asks for. The next router has its
/// initial route, or takes its route over an edge from the group that is first on its group's path: such
/// an edge is there, and labels with that route are a part too. If all routes are there, the labels are
/// what lifting asks for.
pub fn lift_steps()
    ensures empty { (problem small : Problem) (groups : List ℕ) (lower : List (Option Route)) → IsLiftedPart problem small groups lower (replicate (count problem) None) }
    ensures started { (problem small : Problem) (groups : List ℕ) (lower labels : List (Option Route)) → CanBeLifted problem small groups lower → (u : ℕ) (m i : Route) → IsNextToLift problem small groups lower labels u m → initial problem u ≡ Some i → IsLiftedPart problem small groups lower (slice_set labels u (Some i)) }
    ensures source { (problem small : Problem) (groups : List ℕ) (lower : List (Option Route)) → CanBeLifted problem small groups lower → (u : ℕ) (m : Route) → u < count problem → label lower (group_of groups u) ≡ Some m → initial problem u ≡ None → (source : ℕ) × IsFirstOn small (path_of m) source }
    ensures found { (problem small : Problem) (groups : List ℕ) (lower labels : List (Option Route)) → CanBeLifted problem small groups lower → (u source : ℕ) (m : Route) → IsNextToLift problem small groups lower labels u m → initial problem u ≡ None → IsFirstOn small (path_of m) source → (route : Route) × TakesFrom problem small groups labels u source route m }
    ensures taken { (problem small : Problem) (groups : List ℕ) (lower labels : List (Option Route)) → CanBeLifted problem small groups lower → (u source : ℕ) (m route : Route) → IsNextToLift problem small groups lower labels u m → initial problem u ≡ None → IsFirstOn small (path_of m) source → TakesFrom problem small groups labels u source route m → IsLiftedPart problem small groups lower (slice_set labels u (Some route)) }
    ensures whole { (problem small : Problem) (groups : List ℕ) (lower labels : List (Option Route)) → CanBeLifted problem small groups lower → IsLiftedPart problem small groups lower labels → ((u : ℕ) (m : Route) → u < count problem → label lower (group_of groups u) ≡ Some m → (route : Route) × (label labels u ≡ Some route)) → IsLift problem small groups lower labels }
{}

/// The same of folding: the next group has the initial route of its first member, or takes its route over
/// an edge from the group of the router that is first on that member's path.
pub fn fold_steps()
    ensures empty { (problem small : Problem) (groups : List ℕ) (labels : List (Option Route)) → IsFoldedPart problem small groups labels (replicate (count small) None) }
    ensures started { (problem small : Problem) (groups : List ℕ) (labels lower : List (Option Route)) → CanBeFolded problem small groups labels → (u : ℕ) (r i : Route) → IsNextToFold problem small groups labels lower u r → initial problem u ≡ Some i → IsFoldedPart problem small groups labels (slice_set lower (group_of groups u) (Some i)) }
    ensures source { (problem small : Problem) (groups : List ℕ) (labels : List (Option Route)) → CanBeFolded problem small groups labels → (u : ℕ) (r : Route) → u < count problem → label labels u ≡ Some r → initial problem u ≡ None → (source : ℕ) × IsFirstOn problem (path_of r) source }
    ensures found { (problem small : Problem) (groups : List ℕ) (labels lower : List (Option Route)) → CanBeFolded problem small groups labels → (u source : ℕ) (r : Route) → IsNextToFold problem small groups labels lower u r → initial problem u ≡ None → IsFirstOn problem (path_of r) source → (route : Route) × GroupTakes problem small lower (group_of groups u) (group_of groups source) route r }
    ensures taken { (problem small : Problem) (groups : List ℕ) (labels lower : List (Option Route)) → CanBeFolded problem small groups labels → (u source : ℕ) (r route : Route) → IsNextToFold problem small groups labels lower u r → initial problem u ≡ None → IsFirstOn problem (path_of r) source → GroupTakes problem small lower (group_of groups u) (group_of groups source) route r → IsFoldedPart problem small groups labels (slice_set lower (group_of groups u) (Some route)) }
    ensures whole { (problem small : Problem) (groups : List ℕ) (labels lower : List (Option Route)) → CanBeFolded problem small groups labels → IsFoldedPart problem small groups labels lower → ((u : ℕ) (r : Route) → u < count problem → label labels u ≡ Some r → (route : Route) × (label lower (group_of groups u) ≡ Some route)) → IsFold problem small groups labels lower }
{}
