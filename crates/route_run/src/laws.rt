//! Laws of runs. The functions do nothing: their contracts are the laws.

ghost use Rattle.std.specs.Prelude.{◌≡◌, ◌<◌, ℕ, All, List, Option};
ghost use Rattle.base_kit.specs.declared.protocol.Protocol.TheVariants.{Ospf as OverOspf};
ghost use Rattle.srp_core.specs.declared.route.Route.{Route};
ghost use Rattle.srp_core.specs.Alike.{ProblemsAlike};
ghost use Rattle.srp_core.specs.Problem.{Problem, count, IsProblem};
ghost use Rattle.srp_core.specs.Stability.{AreLabels, IsStable};
ghost use Rattle.route_run.specs.Activations.{labels_after, no_labels, IsAtRest, IsFirstMoving};
ghost use Rattle.route_run.specs.Orders.{IsOrderOf, IsSolutionLike};
ghost use Rattle.route_run.specs.Rounds.{HasRounds, HasNoLone, PrependsAtMost, enough_rounds};

/// After every run, from any labels, the labels are at rest exactly if they are stable.
pub fn rest()
    ensures stable { (problem : Problem) (labels : List (Option Route)) (run : List ℕ) → IsProblem problem → AreLabels problem labels → IsAtRest problem (labels_after problem labels run) → IsStable problem (labels_after problem labels run) }
    ensures rest { (problem : Problem) (labels : List (Option Route)) (run : List ℕ) → IsStable problem (labels_after problem labels run) → IsAtRest problem (labels_after problem labels run) }
{}

/// The order of a solution, run from no labels, leads to a solution in which each router has the same key.
/// The problem may have lone routers.
pub fn orders_reach()
    ensures { (problem : Problem) (labels : List (Option Route)) (run : List ℕ) → IsProblem problem → IsStable problem labels → IsOrderOf problem labels run → IsSolutionLike problem labels (labels_after problem (no_labels problem) run) }
{}

/// Labels have exactly one order.
pub fn one_order()
    ensures exists { (problem : Problem) (labels : List (Option Route)) → (run : List ℕ) × IsOrderOf problem labels run }
    ensures unique { (problem : Problem) (labels : List (Option Route)) (first second : List ℕ) → IsOrderOf problem labels first → IsOrderOf problem labels second → first ≡ second }
{}

/// If no router is lone, (n - 1) * (p + 1) + 1 rounds from no labels lead to stable labels, for n
/// routers and imports that prepend at most p numbers. In OSPF n rounds do.
pub fn rounds()
    ensures ospf { (problem : Problem) (run : List ℕ) → IsProblem problem → problem.protocol ≡ OverOspf → All (λ u. u < count problem) run → HasRounds problem (count problem) run → IsStable problem (labels_after problem (no_labels problem) run) }
    ensures none_lone { (problem : Problem) (most : ℕ) (run : List ℕ) → IsProblem problem → HasNoLone problem → PrependsAtMost problem most → All (λ u. u < count problem) run → HasRounds problem (enough_rounds problem most) run → IsStable problem (labels_after problem (no_labels problem) run) }
{}

/// Problems that are alike run alike, and the same router moves first.
pub fn alike()
    ensures run { (first second : Problem) (run : List ℕ) → IsProblem first → ProblemsAlike first second → labels_after first (no_labels first) run ≡ labels_after second (no_labels second) run }
    ensures moving { (first second : Problem) (labels : List (Option Route)) (u v : ℕ) → IsProblem first → ProblemsAlike first second → AreLabels first labels → IsFirstMoving first labels u → IsFirstMoving second labels v → u ≡ v }
    ensures rest { (first second : Problem) (labels : List (Option Route)) (u : ℕ) → IsProblem first → ProblemsAlike first second → AreLabels first labels → IsStable first labels → IsFirstMoving second labels u → ⊥ }
{}
