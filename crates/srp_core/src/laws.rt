//! What holds of every routing problem and of its quotient by an admissible partition. Each law is the
//! contract of a function that does nothing: whoever needs one calls it. No law says that a network has
//! a stable solution, that it has only one, or that it reaches one.
ghost use Rattle.std.specs.Prelude.{◌≡◌, ◌≢◌, ℕ, ◌<◌, ◌∷◌, ◌++◌, true, false, List, Option, Some, None, length, Contains};
ghost use Rattle.base_kit.specs.declared.act_graph.Edge.{Edge};
ghost use Rattle.base_kit.specs.declared.protocol.Protocol.TheVariants.{Bgp as OverBgp, Ospf as OverOspf};
ghost use Rattle.base_kit.specs.Partition.{Refines};
ghost use Rattle.srp_core.specs.declared.route.Route.{Route};
ghost use Rattle.srp_core.specs.declared.route.Candidate.{Candidate};
ghost use Rattle.srp_core.specs.Routes.{path_of, is_on};
ghost use Rattle.srp_core.specs.Problem.{Problem, count, number, is_lone, step_over, key_of, IsProblem};
ghost use Rattle.srp_core.specs.Stability.{label, AreLabels, IsCandidate, IsStable, HaveSameKeys};
ghost use Rattle.srp_core.specs.Quotient.{group_of, IsAdmissible, IsCoarsest, IsJoin, IsQuotient, KeepsTables, Corresponds};
ghost use Rattle.srp_core.specs.Candidates.{candidates, IsSettled};
ghost use Rattle.srp_core.specs.Laws.{Below, Above, HasPath, HasBetter, HasShorter};
ghost use Rattle.srp_core.specs.Lifts.{IsLift, IsFold, AllTrack};

pub mod alike;
pub mod filling;
pub mod keys;

/// In every stable solution the members of a group of an admissible partition hold routes of one key,
/// or all hold none.
pub fn equal_keys()
    ensures { (problem : Problem) (groups : List ℕ) (labels : List (Option Route)) → IsProblem problem → IsAdmissible problem groups → IsStable problem labels → (u v : ℕ) → u < count problem → v < count problem → group_of groups u ≡ group_of groups v → HaveSameKeys problem problem (label labels u) (label labels v) }
{}

/// Every stable solution of a problem has one of its quotient by an admissible partition that
/// corresponds to it.
pub fn to_quotient()
    ensures { (problem small : Problem) (groups : List ℕ) (labels : List (Option Route)) → IsProblem problem → IsProblem small → IsAdmissible problem groups → IsQuotient problem groups small → IsStable problem labels → Below problem small groups labels }
{}

/// Every stable solution of the quotient has one of the problem that corresponds to it.
pub fn from_quotient()
    ensures { (problem small : Problem) (groups : List ℕ) (lower : List (Option Route)) → IsProblem problem → IsProblem small → IsAdmissible problem groups → IsQuotient problem groups small → IsStable small lower → Above problem small groups lower }
{}

/// The quotient of a problem by an admissible partition keeps the rules of a problem, if its tables keep
/// those rules that the quotient relation leaves open.
pub fn quotient_is_problem()
    ensures { (problem small : Problem) (groups : List ℕ) → IsProblem problem → IsAdmissible problem groups → IsQuotient problem groups small → KeepsTables problem small → IsProblem small }
{}

/// In stable labels each number on a path is the number of a router with a label. The path of that label
/// is what stands behind the last place of the number, so it is strictly shorter.
pub fn chains()
    ensures { (problem : Problem) (labels : List (Option Route)) → IsProblem problem → IsStable problem labels → (u wanted : ℕ) (route : Route) (before after : List ℕ) → label labels u ≡ Some route → path_of route ≡ before ++ (wanted ∷ after) → is_on wanted after ≡ false → HasPath problem labels wanted after }
{}

/// An edge inside a group never carries a best route: what it gives, before the loop check, is worse
/// than the label that its importer then has.
pub fn inner_edges()
    ensures { (problem : Problem) (groups : List ℕ) (labels : List (Option Route)) → IsProblem problem → IsAdmissible problem groups → IsStable problem labels → (edge : Edge) (from route : Route) → Contains problem.edges edge → group_of groups edge.importer ≡ group_of groups edge.exporter → label labels edge.exporter ≡ Some from → step_over problem edge from ≡ Some route → HasBetter problem labels edge.importer route }
{}

/// The loop check never decides what a router that is not lone holds: a route that it drops there is
/// worse than the label that the router then has.
pub fn loop_check()
    ensures { (problem : Problem) (labels : List (Option Route)) → IsProblem problem → IsStable problem labels → (edge : Edge) (from route : Route) → Contains problem.edges edge → is_lone problem edge.importer ≡ false → label labels edge.exporter ≡ Some from → step_over problem edge from ≡ Some route → is_on (number problem edge.importer) (path_of route) ≡ true → HasBetter problem labels edge.importer route }
{}

/// The route that the loop check drops is strictly longer than the label that the router then has, and at
/// a router that is not lone of the same preference.
pub fn dropped_routes()
    ensures { (problem : Problem) (labels : List (Option Route)) → IsProblem problem → IsStable problem labels → (edge : Edge) (from route : Route) → Contains problem.edges edge → label labels edge.exporter ≡ Some from → step_over problem edge from ≡ Some route → is_on (number problem edge.importer) (path_of route) ≡ true → HasShorter problem labels edge.importer route }
{}

/// The loop check of a lone router has one answer in a problem and in its quotient, for routes of one
/// key.
pub fn lone_loop_check()
    ensures { (problem small : Problem) (groups : List ℕ) → IsProblem problem → IsProblem small → IsAdmissible problem groups → IsQuotient problem groups small → (u : ℕ) (route other : Route) → u < count problem → is_lone problem u ≡ true → key_of problem route ≡ key_of small other → is_on (number problem u) (path_of route) ≡ is_on (number small (group_of groups u)) (path_of other) }
{}

/// What the lifting of labels asks for, in BGP, is stable and corresponds.
pub fn lifts()
    ensures stable { (problem small : Problem) (groups : List ℕ) (labels lower : List (Option Route)) → IsProblem problem → IsProblem small → IsAdmissible problem groups → IsQuotient problem groups small → small.protocol ≡ OverBgp → IsStable small lower → IsLift problem small groups lower labels → IsStable problem labels }
    ensures corresponds { (problem small : Problem) (groups : List ℕ) (labels lower : List (Option Route)) → IsProblem problem → IsProblem small → IsAdmissible problem groups → IsQuotient problem groups small → small.protocol ≡ OverBgp → IsStable small lower → IsLift problem small groups lower labels → Corresponds problem small groups labels lower }
    ensures determined { (problem small : Problem) (groups : List ℕ) (labels others lower : List (Option Route)) → IsProblem problem → IsProblem small → IsAdmissible problem groups → IsQuotient problem groups small → small.protocol ≡ OverBgp → IsStable small lower → IsLift problem small groups lower labels → IsLift problem small groups lower others → labels ≡ others }
{}

/// What the folding of labels asks for, in BGP, is stable and corresponds.
pub fn folds()
    ensures stable { (problem small : Problem) (groups : List ℕ) (labels lower : List (Option Route)) → IsProblem problem → IsProblem small → IsAdmissible problem groups → IsQuotient problem groups small → problem.protocol ≡ OverBgp → IsStable problem labels → IsFold problem small groups labels lower → IsStable small lower }
    ensures corresponds { (problem small : Problem) (groups : List ℕ) (labels lower : List (Option Route)) → IsProblem problem → IsProblem small → IsAdmissible problem groups → IsQuotient problem groups small → problem.protocol ≡ OverBgp → IsStable problem labels → IsFold problem small groups labels lower → Corresponds problem small groups labels lower }
    ensures determined { (problem small : Problem) (groups : List ℕ) (labels lower others : List (Option Route)) → IsProblem problem → IsProblem small → IsAdmissible problem groups → IsQuotient problem groups small → problem.protocol ≡ OverBgp → IsStable problem labels → IsFold problem small groups labels lower → IsFold problem small groups labels others → lower ≡ others }
{}

/// In BGP labels that lifting asks for exist for every stable solution of the quotient, and labels that
/// folding asks for exist for every stable solution of the problem.
pub fn lifts_and_folds_exist()
    ensures lift { (problem small : Problem) (groups : List ℕ) (lower : List (Option Route)) → IsProblem problem → IsProblem small → IsAdmissible problem groups → IsQuotient problem groups small → small.protocol ≡ OverBgp → IsStable small lower → (labels : List (Option Route)) × IsLift problem small groups lower labels }
    ensures fold { (problem small : Problem) (groups : List ℕ) (labels : List (Option Route)) → IsProblem problem → IsProblem small → IsAdmissible problem groups → IsQuotient problem groups small → problem.protocol ≡ OverBgp → IsStable problem labels → (lower : List (Option Route)) × IsFold problem small groups labels lower }
{}

/// In OSPF members with the label of their group are stable and correspond.
pub fn ospf_lifts()
    ensures stable { (problem small : Problem) (groups : List ℕ) (labels lower : List (Option Route)) → IsProblem problem → IsProblem small → IsAdmissible problem groups → IsQuotient problem groups small → small.protocol ≡ OverOspf → IsStable small lower → length labels ≡ count problem → ((u : ℕ) → u < count problem → label labels u ≡ label lower (group_of groups u)) → IsStable problem labels }
    ensures corresponds { (problem small : Problem) (groups : List ℕ) (labels lower : List (Option Route)) → IsProblem problem → IsProblem small → IsAdmissible problem groups → IsQuotient problem groups small → small.protocol ≡ OverOspf → IsStable small lower → length labels ≡ count problem → ((u : ℕ) → u < count problem → label labels u ≡ label lower (group_of groups u)) → Corresponds problem small groups labels lower }
{}

/// In OSPF groups with the label of their members are stable and correspond.
pub fn ospf_folds()
    ensures stable { (problem small : Problem) (groups : List ℕ) (labels lower : List (Option Route)) → IsProblem problem → IsProblem small → IsAdmissible problem groups → IsQuotient problem groups small → problem.protocol ≡ OverOspf → IsStable problem labels → length lower ≡ count small → ((u : ℕ) → u < count problem → label lower (group_of groups u) ≡ label labels u) → IsStable small lower }
    ensures corresponds { (problem small : Problem) (groups : List ℕ) (labels lower : List (Option Route)) → IsProblem problem → IsProblem small → IsAdmissible problem groups → IsQuotient problem groups small → problem.protocol ≡ OverOspf → IsStable problem labels → length lower ≡ count small → ((u : ℕ) → u < count problem → label lower (group_of groups u) ≡ label labels u) → Corresponds problem small groups labels lower }
{}

/// In the labels that lifting asks for, the groups along a router's path are the groups along its
/// group's path, in the same order.
pub fn tracking()
    ensures { (problem small : Problem) (groups : List ℕ) (labels lower : List (Option Route)) → IsProblem problem → IsProblem small → IsAdmissible problem groups → IsQuotient problem groups small → small.protocol ≡ OverBgp → IsStable small lower → IsLift problem small groups lower labels → (u : ℕ) (route other : Route) → label labels u ≡ Some route → label lower (group_of groups u) ≡ Some other → AllTrack problem small groups (path_of route) (path_of other) }
{}

/// The list of candidates of a router has its candidates and no others, and labels are stable exactly if
/// each router is settled by its list.
pub fn listed_candidates()
    ensures sound { (problem : Problem) (labels : List (Option Route)) (u : ℕ) (candidate : Candidate) → Contains (candidates problem labels u) candidate → IsCandidate problem labels u candidate.route }
    ensures complete { (problem : Problem) (labels : List (Option Route)) (u : ℕ) (route : Route) → IsCandidate problem labels u route → (candidate : Candidate) × Contains (candidates problem labels u) candidate × (candidate.route ≡ route) }
    ensures stable { (problem : Problem) (labels : List (Option Route)) → AreLabels problem labels → ((u : ℕ) → u < count problem → IsSettled problem labels u) → IsStable problem labels }
    ensures settled { (problem : Problem) (labels : List (Option Route)) → IsStable problem labels → (u : ℕ) → u < count problem → IsSettled problem labels u }
{}

/// Two partitions have a join, and that of two admissible ones is admissible. So each problem has a
/// coarsest admissible partition, and one only: two of them put the same routers together.
pub fn joins()
    ensures exists { (routers : ℕ) (first second : List ℕ) → length first ≡ routers → (joined : List ℕ) × IsJoin routers first second joined }
    ensures admissible { (problem : Problem) (first second joined : List ℕ) → IsProblem problem → IsAdmissible problem first → IsAdmissible problem second → IsJoin (count problem) first second joined → IsAdmissible problem joined }
    ensures coarsest { (problem : Problem) → IsProblem problem → (groups : List ℕ) × IsCoarsest problem groups }
    ensures one_coarsest { (problem : Problem) (first second : List ℕ) → IsCoarsest problem first → IsCoarsest problem second → Refines (count problem) first second }
{}
