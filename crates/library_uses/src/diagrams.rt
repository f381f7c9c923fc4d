//! Calls on decision diagrams over sets of communities, on their memory, and on the functions of
//! sessions.

ghost use Rattle.std.specs.Prelude.{◌≡◌, ◌≤◌, ◌<◌, [], ◌&&◌, ◌||◌, ℕ, List as Items, Ok, Option, Some, IfOk, MatchOption, OnErr, OnOk, length, not, true, false};
ghost use Rattle.base_kit.specs.Sets.{has};
ghost use Rattle.dd_cache.specs.Memory.{found, kept, memory, recalled};
ghost use Rattle.dd_core.specs.Reach.{DependsOnNone, DependsOnOthers, IsFirstOf, IsSize, IsSupport};
ghost use Rattle.dd_core.specs.Restrict.{IsPartOf, restricted};
ghost use Rattle.dd_core.specs.Sets.{Grows, IsIteOfSets, Means, constant_at, fresh, has_others, remembered, value_of};
ghost use Rattle.policy_dd.specs.Edge.{IsEdgeFn};
ghost use Rattle.policy_dd.specs.Imports.{AreOneImport, DifferInPreference, HaveOnePreference};
ghost use Rattle.route_maps.specs.Maps.{import_of};
ghost use Rattle.route_maps.specs.Within.{IsMapWithin};
ghost use Rattle.route_maps.specs.declared.plain.Imported.{Imported};

use base_kit::{Community, NoMemory, NumSet};
use dd_cache::{Cache, OpKey};
use dd_core::{NodeId, Store};
use policy_dd::{EdgeFn, edge_fn, same, several};
use route_maps::Plain;
use std::alloc::Global;

/// A store over some communities.
pub fn store_over(alloc: Global, universe: &NumSet) -> Result<Store, NoMemory>
    ensures { IfOk result (λ s. s ≡ fresh universe.now 16384) }
{
    Store::new(alloc, universe)
}

/// A store that remembers so many operations.
pub fn store_with(alloc: Global, universe: &NumSet, capacity: usize) -> Result<Store, NoMemory>
    requires { 1 ≤ capacity }
    ensures { IfOk result (λ s. s ≡ fresh universe.now capacity) }
{
    Store::with_capacity(alloc, universe, capacity)
}

/// The communities that have variables of their own.
pub fn universe_of(store: &Store) -> &NumSet
    ensures { result.now ≡ store.now.universe }
{
    store.universe()
}

/// How many nodes a store has.
pub fn nodes_in(store: &Store) -> usize
    ensures { result ≡ length store.now.nodes }
{
    store.len()
}

/// The diagram that is the same on every set.
pub fn constant(store: &Store, v: bool) -> NodeId
    ensures { Means store.now result (λ _. v) }
{
    store.constant(v)
}

/// The diagram that is true on the sets with a community.
pub fn with_community(store: &mut Store, c: Community) -> Result<NodeId, NoMemory>
    requires { has store.old.universe c.0 ≡ true }
    ensures grows { Grows store.old store.new }
    ensures value { IfOk result (λ node. Means store.new node (λ set. has set c.0)) }
{
    store.var(c)
}

/// The diagram that is true on the sets with a community that no line names.
pub fn with_others(store: &mut Store) -> Result<NodeId, NoMemory>
    ensures grows { Grows store.old store.new }
    ensures value { IfOk result (λ node. Means store.new node (λ set. has_others store.old.universe set)) }
{
    store.others()
}

/// The diagram that is true where another is false.
pub fn negation(store: &mut Store, a: NodeId) -> Result<NodeId, NoMemory>
    requires { a < length store.old.nodes }
    ensures grows { Grows store.old store.new }
    ensures value { IfOk result (λ node. Means store.new node (λ set. not (value_of store.old set a))) }
{
    store.not(a)
}

/// The diagram that is true where both are.
pub fn conjunction(store: &mut Store, a: NodeId, b: NodeId) -> Result<NodeId, NoMemory>
    requires a_inside { a < length store.old.nodes }
    requires b_inside { b < length store.old.nodes }
    ensures grows { Grows store.old store.new }
    ensures value { IfOk result (λ node. Means store.new node (λ set. value_of store.old set a && value_of store.old set b)) }
{
    store.and(a, b)
}

/// The diagram that is true where one of them is.
pub fn disjunction(store: &mut Store, a: NodeId, b: NodeId) -> Result<NodeId, NoMemory>
    requires a_inside { a < length store.old.nodes }
    requires b_inside { b < length store.old.nodes }
    ensures grows { Grows store.old store.new }
    ensures value { IfOk result (λ node. Means store.new node (λ set. value_of store.old set a || value_of store.old set b)) }
{
    store.or(a, b)
}

/// The diagram that is `b` where `a` is true, and `c` elsewhere.
pub fn choice(store: &mut Store, a: NodeId, b: NodeId, c: NodeId) -> Result<NodeId, NoMemory>
    requires a_inside { a < length store.old.nodes }
    requires b_inside { b < length store.old.nodes }
    requires c_inside { c < length store.old.nodes }
    ensures grows { Grows store.old store.new }
    ensures value { IfOk result (IsIteOfSets store.old store.new a b c) }
    ensures kept { IfOk result (λ node. remembered store.new a b c ≡ Some node) }
{
    store.ite(a, b, c)
}

/// The node that is remembered for a choice.
pub fn remembered_choice(store: &Store, a: NodeId, b: NodeId, c: NodeId) -> Option<NodeId>
    ensures { result ≡ remembered store.now a b c }
{
    store.remembered(a, b, c)
}

/// The value of a diagram on a set of communities.
pub fn value_on(store: &Store, a: NodeId, comms: &NumSet) -> bool
    requires { a < length store.now.nodes }
    ensures { result ≡ value_of store.now comms.now a }
{
    store.eval(a, comms)
}

/// The diagram where some communities are put into each set, and then others are taken out.
pub fn restriction(
    store: &mut Store,
    a: NodeId,
    present: &NumSet,
    absent: &NumSet,
) -> Result<NodeId, NoMemory>
    requires inside { a < length store.old.nodes }
    requires present { IsPartOf store.old.universe present.now }
    requires absent { IsPartOf store.old.universe absent.now }
    ensures grows { Grows store.old store.new }
    ensures value { IfOk result (λ node. Means store.new node (λ set. value_of store.old (restricted present.now absent.now set) a)) }
{
    store.restrict(a, present, absent)
}

/// The least community on which a diagram depends.
pub fn first_of(store: &Store, a: NodeId) -> Option<Community>
    requires { a < length store.now.nodes }
    ensures { MatchOption result (DependsOnNone store.now a) (λ c. IsFirstOf store.now a c.0) }
{
    store.first(a)
}

/// The communities on which a diagram depends.
pub fn support_of(store: &Store, a: NodeId) -> Result<NumSet, NoMemory>
    requires { a < length store.now.nodes }
    ensures { IfOk result (IsSupport store.now a) }
{
    store.support(a)
}

/// Whether a diagram depends on communities that no line names.
pub fn asks_for_others(store: &Store, a: NodeId) -> Result<bool, NoMemory>
    requires { a < length store.now.nodes }
    ensures needed { IfOk result (λ asks. asks ≡ true → DependsOnOthers store.now a) }
    ensures all { IfOk result (λ asks. DependsOnOthers store.now a → asks ≡ true) }
{
    store.needs_others(a)
}

/// How many nodes a diagram has, constants left out.
pub fn size_of(store: &Store, a: NodeId) -> Result<usize, NoMemory>
    requires { a < length store.now.nodes }
    ensures { IfOk result (IsSize store.now.nodes a) }
{
    store.size(a)
}

/// A memory of so many operations.
pub fn memory_of(alloc: Global, capacity: usize) -> Result<Cache, NoMemory>
    requires { 1 ≤ capacity }
    ensures { IfOk result (λ c. c ≡ memory capacity []) }
{
    Cache::new(alloc, capacity)
}

/// The node kept under a key, whose entry comes to the front.
pub fn recall(cache: &mut Cache, key: OpKey) -> Option<usize>
    ensures node { result ≡ found key cache.old.entries }
    ensures front { cache.new ≡ memory cache.old.capacity (recalled key cache.old.entries) }
{
    cache.recall(key)
}

/// The node kept under a key.
pub fn look(cache: &Cache, key: OpKey) -> Option<usize>
    ensures { result ≡ found key cache.now.entries }
{
    cache.look(key)
}

/// Keeps a node under a key.
pub fn keep(cache: &mut Cache, key: OpKey, node: usize) -> Result<(), NoMemory>
    ensures ok { OnOk result (cache.new ≡ memory cache.old.capacity (kept cache.old.capacity key node cache.old.entries)) }
    ensures err { OnErr result (cache.new ≡ cache.old) }
{
    cache.keep(key, node)
}

/// The function of a session.
pub fn function_of(
    alloc: Global,
    store: &mut Store,
    out: &Plain,
    sends: bool,
    into: &Plain,
) -> Result<EdgeFn, NoMemory>
    requires out { IsMapWithin store.old.universe out.now }
    requires into { IsMapWithin store.old.universe into.now }
    ensures grows { Grows store.old store.new }
    ensures function { IfOk result (λ edge. IsEdgeFn store.new edge (import_of out.now sends into.now)) }
{
    edge_fn(alloc, store, out, sends, into)
}

/// Whether two sessions import every set of communities alike.
pub fn are_alike(store: &Store, a: &EdgeFn, b: &EdgeFn) -> bool
    ensures same { (f g : Items ℕ → Option Imported) → IsEdgeFn store.now a.now f → IsEdgeFn store.now b.now g → result ≡ true → AreOneImport f g }
    ensures different { (f g : Items ℕ → Option Imported) → IsEdgeFn store.now a.now f → IsEdgeFn store.now b.now g → AreOneImport f g → result ≡ true }
{
    same(store, a, b)
}

/// Whether some routes that two sessions accept differ in preference.
pub fn differ_in_preference(store: &Store, a: &EdgeFn, b: &EdgeFn) -> bool
    ensures several { (f g : Items ℕ → Option Imported) → IsEdgeFn store.now a.now f → IsEdgeFn store.now b.now g → result ≡ true → DifferInPreference f g }
    ensures one { (f g : Items ℕ → Option Imported) → IsEdgeFn store.now a.now f → IsEdgeFn store.now b.now g → result ≡ false → HaveOnePreference f g }
{
    several(store, a, b)
}
