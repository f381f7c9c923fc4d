//! What holds of one of two problems that are alike holds of the other. The problems of a network and a
//! prefix are alike: they leave open only which of several acts that act alike an edge has.
ghost use Rattle.std.specs.Prelude.{◌≡◌, ℕ, ◌<◌, List, Option, Some, Contains};
ghost use Rattle.base_kit.specs.Prefixes.{Prefix};
ghost use Rattle.base_kit.specs.declared.act_graph.Edge.{Edge};
ghost use Rattle.cfg_ast.specs.declared.network.Network.{Network};
ghost use Rattle.srp_core.specs.declared.route.Route.{Route};
ghost use Rattle.srp_core.specs.Alike.{EdgesAlike, ProblemsAlike};
ghost use Rattle.srp_core.specs.Candidates.{candidates};
ghost use Rattle.srp_core.specs.Lifts.{IsLift, IsFold};
ghost use Rattle.srp_core.specs.Problem.{Problem, key_of};
ghost use Rattle.srp_core.specs.ProblemOf.{IsProblemOf};
ghost use Rattle.srp_core.specs.Quotient.{IsAdmissible, IsCoarsest, IsQuotient, Corresponds};
ghost use Rattle.srp_core.specs.Stability.{AreLabels, IsStable, HaveSameKeys, ForwardsTo};

/// Two problems of one network and prefix are alike.
pub fn problems_of_one_prefix()
    ensures { (network : Network) (prefix : Prefix) (first second : Problem) → IsProblemOf network prefix first → IsProblemOf network prefix second → ProblemsAlike first second }
{}

/// The relation of being alike is symmetric and transitive.
pub fn both_ways()
    ensures turned { (first second : Problem) → ProblemsAlike first second → ProblemsAlike second first }
    ensures joined { (first second third : Problem) → ProblemsAlike first second → ProblemsAlike second third → ProblemsAlike first third }
{}

/// Each edge of one problem has an edge of the other that is alike.
pub fn edges()
    ensures { (first second : Problem) → ProblemsAlike first second → (edge : Edge) → Contains first.edges edge → (other : Edge) × Contains second.edges other × EdgesAlike first second edge other }
{}

/// A route has one key in both problems. So two routes that have equal keys in two problems have equal
/// keys in problems that are alike to these.
pub fn keys()
    ensures one { (first second : Problem) → ProblemsAlike first second → (route : Route) → key_of first route ≡ key_of second route }
    ensures same { (first other small less : Problem) → ProblemsAlike first other → ProblemsAlike small less → (a b : Option Route) → HaveSameKeys first small a b → HaveSameKeys other less a b }
{}

/// The lists of candidates are equal, for labels of the problem.
pub fn same_candidates()
    ensures labels { (first second : Problem) (labels : List (Option Route)) → ProblemsAlike first second → AreLabels first labels → AreLabels second labels }
    ensures lists { (first second : Problem) (labels : List (Option Route)) → ProblemsAlike first second → AreLabels first labels → (router : ℕ) → candidates first labels router ≡ candidates second labels router }
{}

/// Labels that are stable in one problem are stable in the other, and routers forward to the same
/// routers.
pub fn stability()
    ensures stable { (first second : Problem) (labels : List (Option Route)) → ProblemsAlike first second → IsStable first labels → IsStable second labels }
    ensures forwards { (first second : Problem) (labels : List (Option Route)) → ProblemsAlike first second → AreLabels first labels → (router next : ℕ) → ForwardsTo first labels router next → ForwardsTo second labels router next }
{}

/// A partition that is admissible, or the coarsest, in one problem is so in the other.
pub fn partitions()
    ensures admissible { (first second : Problem) (groups : List ℕ) → ProblemsAlike first second → IsAdmissible first groups → IsAdmissible second groups }
    ensures coarsest { (first second : Problem) (groups : List ℕ) → ProblemsAlike first second → IsCoarsest first groups → IsCoarsest second groups }
{}

/// A problem that is alike to a quotient is a quotient of each problem that is alike to the first.
pub fn quotients()
    ensures { (problem other small less : Problem) (groups : List ℕ) → ProblemsAlike problem other → ProblemsAlike small less → IsQuotient problem groups small → IsQuotient other groups less }
{}

/// Labels that correspond do so for problems that are alike, and what lifting or folding asks for is the
/// same.
pub fn labels_of_quotients()
    ensures correspond { (problem other small less : Problem) (groups : List ℕ) (labels lower : List (Option Route)) → ProblemsAlike problem other → ProblemsAlike small less → AreLabels problem labels → AreLabels small lower → Corresponds problem small groups labels lower → Corresponds other less groups labels lower }
    ensures lift { (problem other small less : Problem) (groups : List ℕ) (labels lower : List (Option Route)) → ProblemsAlike problem other → ProblemsAlike small less → IsLift problem small groups lower labels → IsLift other less groups lower labels }
    ensures fold { (problem other small less : Problem) (groups : List ℕ) (labels lower : List (Option Route)) → ProblemsAlike problem other → ProblemsAlike small less → IsFold problem small groups labels lower → IsFold other less groups labels lower }
{}
