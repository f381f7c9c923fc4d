//! The store of diagrams.

ghost use Rattle.std.specs.Prelude.{◌≡◌, ◌≤◌, ◌<◌, length, IfOk, IfSome, MatchOption, Ok, Some, ℕ, Bool, true, false, not, ◌&&◌, ◌||◌, List, nat_eq, slice_index};
ghost use Rattle.base_kit.specs.Sets.{has, IsAscending};
ghost use Rattle.dd_core.specs.Reach.{IsSupport, IsFirstOf, DependsOnNone, DependsOnOthers, IsSize};
ghost use Rattle.dd_core.specs.Restrict.{IsPartOf, restricted};
ghost use Rattle.dd_core.specs.Sets.{value_of, has_others, Means, Grows, IsIteOfSets, IsShown, DifferOnSet, fresh, constant_at, remembered, recalling};

use crate::NodeId;
use crate::build::choice;
use crate::ite::remembered_ite;
use crate::reach::{count_choices, marked_communities, reached, used_variables};
use crate::restrict::restricted_node;
use crate::table::{Node, Table};
use crate::variables::{community_at, is_true, place_of};
use base_kit::{Community, NoMemory, NumSet};
use dd_cache::{Cache, OpKey};
use std::alloc::Global;
use std::marker::Model;

/// Diagrams that share their nodes, and the last operations on them.
#[derive(Drop)]
pub struct Store {
    universe: NumSet,
    table: Table,
    cache: Cache,
    alloc: Global,
}

impl Model for Store {
    ghost use Rattle.dd_core.specs.Sets.{Shown, IsShown};

    ghost Value = { Shown };

    ghost view = { λ s. record { universe = s.universe; nodes = s.table; memory = s.cache } };

    ghost invariant = { λ s. IsShown (record { universe = s.universe; nodes = s.table; memory = s.cache }) };
}

impl Store {
    /// A store with the two constants, which remembers 16,384 operations.
    pub fn new(alloc: Global, universe: &NumSet) -> Result<Store, NoMemory>
        ensures { IfOk result (λ s. s ≡ fresh universe.now 16384) }
    {
        Store::with_capacity(alloc, universe, 16384)
    }

    /// A store with the two constants, which remembers at most so many operations.
    pub fn with_capacity(
        alloc: Global,
        universe: &NumSet,
        capacity: usize,
    ) -> Result<Store, NoMemory>
        requires { 1 ≤ capacity }
        ensures { IfOk result (λ s. s ≡ fresh universe.now capacity) }
    {
        let universe = universe.copy()?;
        let _known = universe.as_slice();
        let mut table = Table::new(alloc);
        table.intern(Node::Constant(false))?;
        table.intern(Node::Constant(true))?;
        let cache = Cache::new(alloc, capacity)?;
        Ok(Store {
            universe,
            table,
            cache,
            alloc,
        })
    }

    /// The communities that have a variable of their own.
    pub fn universe(&self) -> &NumSet
        ensures universe { result.now ≡ self.now.universe }
        ensures shown { IsShown self.now }
    {
        &self.universe
    }

    /// The number of nodes. The numbers below it are the nodes' numbers.
    pub fn len(&self) -> usize
        ensures len { result ≡ length self.now.nodes }
        ensures shown { IsShown self.now }
    {
        let _known = &self.table;
        self.table.len()
    }

    /// The diagram of a constant.
    pub fn constant(&self, answer: bool) -> NodeId
        ensures number { result ≡ constant_at answer }
        ensures constant { Means self.now result (λ _. answer) }
    {
        let _known = &self.table;
        if answer {
            NodeId::new(1)
        } else {
            NodeId::new(0)
        }
    }

    /// The diagram that is true on the sets with the community, which is one of the universe.
    pub fn var(&mut self, community: Community) -> Result<NodeId, NoMemory>
        requires { has self.old.universe community.0 ≡ true }
        ensures grows { Grows self.old self.new }
        ensures var { IfOk result (λ node. Means self.new node (λ set. has set community.0)) }
    {
        let variable = place_of(&self.universe, community.0);
        let place = choice(&mut self.table, variable, 1, 0)?;
        Ok(NodeId::new(place))
    }

    /// The diagram that is true on the sets with a community outside the universe.
    pub fn others(&mut self) -> Result<NodeId, NoMemory>
        ensures grows { Grows self.old self.new }
        ensures others { IfOk result (λ node. Means self.new node (λ set. has_others self.old.universe set)) }
    {
        let variable = self.universe.as_slice().len();
        let place = choice(&mut self.table, variable, 1, 0)?;
        Ok(NodeId::new(place))
    }

    /// The diagram that is true where `a` is false: `ite(a, false, true)`.
    pub fn not(&mut self, a: NodeId) -> Result<NodeId, NoMemory>
        requires { a < length self.old.nodes }
        ensures grows { Grows self.old self.new }
        ensures not { IfOk result (λ node. Means self.new node (λ set. not (value_of self.old set a))) }
        ensures kept { IfOk result (λ node. remembered self.new a (constant_at false) (constant_at true) ≡ Some node) }
        ensures hit_result { (node : ℕ) → remembered self.old a (constant_at false) (constant_at true) ≡ Some node → result ≡ Ok node }
        ensures hit_store { (node : ℕ) → remembered self.old a (constant_at false) (constant_at true) ≡ Some node → self.new ≡ recalling self.old a (constant_at false) (constant_at true) }
    {
        let never = self.constant(false);
        let always = self.constant(true);
        let node = self.ite(a, never, always)?;
        Ok(node)
    }

    /// The diagram that is true where both are: `ite(a, b, false)`.
    pub fn and(&mut self, a: NodeId, b: NodeId) -> Result<NodeId, NoMemory>
        requires a_inside { a < length self.old.nodes }
        requires b_inside { b < length self.old.nodes }
        ensures grows { Grows self.old self.new }
        ensures and { IfOk result (λ node. Means self.new node (λ set. value_of self.old set a && value_of self.old set b)) }
        ensures kept { IfOk result (λ node. remembered self.new a b (constant_at false) ≡ Some node) }
        ensures hit_result { (node : ℕ) → remembered self.old a b (constant_at false) ≡ Some node → result ≡ Ok node }
        ensures hit_store { (node : ℕ) → remembered self.old a b (constant_at false) ≡ Some node → self.new ≡ recalling self.old a b (constant_at false) }
    {
        let never = self.constant(false);
        let node = self.ite(a, b, never)?;
        Ok(node)
    }

    /// The diagram that is true where one of them is: `ite(a, true, b)`.
    pub fn or(&mut self, a: NodeId, b: NodeId) -> Result<NodeId, NoMemory>
        requires a_inside { a < length self.old.nodes }
        requires b_inside { b < length self.old.nodes }
        ensures grows { Grows self.old self.new }
        ensures or { IfOk result (λ node. Means self.new node (λ set. value_of self.old set a || value_of self.old set b)) }
        ensures kept { IfOk result (λ node. remembered self.new a (constant_at true) b ≡ Some node) }
        ensures hit_result { (node : ℕ) → remembered self.old a (constant_at true) b ≡ Some node → result ≡ Ok node }
        ensures hit_store { (node : ℕ) → remembered self.old a (constant_at true) b ≡ Some node → self.new ≡ recalling self.old a (constant_at true) b }
    {
        let always = self.constant(true);
        let node = self.ite(a, always, b)?;
        Ok(node)
    }

    /// The diagram that is `b` where `a` is true, and `c` elsewhere. It is remembered from then on;
    /// where it was remembered already, the answer is the node kept, and no node is added.
    pub fn ite(&mut self, a: NodeId, b: NodeId, c: NodeId) -> Result<NodeId, NoMemory>
        requires a_inside { a < length self.old.nodes }
        requires b_inside { b < length self.old.nodes }
        requires c_inside { c < length self.old.nodes }
        ensures grows { Grows self.old self.new }
        ensures ite { IfOk result (IsIteOfSets self.old self.new a b c) }
        ensures kept { IfOk result (λ node. remembered self.new a b c ≡ Some node) }
        ensures hit_result { (node : ℕ) → remembered self.old a b c ≡ Some node → result ≡ Ok node }
        ensures hit_store { (node : ℕ) → remembered self.old a b c ≡ Some node → self.new ≡ recalling self.old a b c }
    {
        let key = OpKey {
            a: a.place(),
            b: b.place(),
            c: c.place(),
        };
        let place = remembered_ite(&mut self.table, &mut self.cache, key)?;
        Ok(NodeId::new(place))
    }

    /// The node remembered for that `ite`.
    pub fn remembered(&self, a: NodeId, b: NodeId, c: NodeId) -> Option<NodeId>
        ensures node { result ≡ remembered self.now a b c }
        ensures right { IfSome result (IsIteOfSets self.now self.now a b c) }
    {
        let place = self.cache.look(OpKey {
            a: a.place(),
            b: b.place(),
            c: c.place(),
        })?;
        Some(NodeId::new(place))
    }

    /// The value on a set of communities.
    pub fn eval(&self, a: NodeId, set: &NumSet) -> bool
        requires { a < length self.now.nodes }
        ensures { result ≡ value_of self.now set.now a }
    {
        let mut place = a.place();
        loop {
            match self.table.node(place) {
                Node::Constant(answer) => return answer,
                Node::Choice {
                    variable,
                    high,
                    low,
                } => {
                    place = if is_true(&self.universe, set, variable) {
                        high
                    } else {
                        low
                    };
                }
            }
        }
    }

    /// The diagram whose value on a set is that of `a` on the set with `present` put in and then `absent`
    /// taken out. All of them are communities of the universe.
    pub fn restrict(
        &mut self,
        a: NodeId,
        present: &NumSet,
        absent: &NumSet,
    ) -> Result<NodeId, NoMemory>
        requires inside { a < length self.old.nodes }
        requires present { IsPartOf self.old.universe present.now }
        requires absent { IsPartOf self.old.universe absent.now }
        ensures grows { Grows self.old self.new }
        ensures restrict { IfOk result (λ node. Means self.new node (λ set. value_of self.old (restricted present.now absent.now set) a)) }
    {
        let place = restricted_node(
            self.alloc,
            &mut self.table,
            &self.universe,
            present,
            absent,
            a.place(),
        )?;
        Ok(NodeId::new(place))
    }

    /// The least community of the universe on which the value depends.
    pub fn first(&self, a: NodeId) -> Option<Community>
        requires { a < length self.now.nodes }
        ensures { MatchOption result (DependsOnNone self.now a) (λ c. IsFirstOf self.now a c.0) }
    {
        match self.table.node(a.place()) {
            Node::Constant(_) => None,
            Node::Choice { variable, .. } => community_at(&self.universe, variable),
        }
    }

    /// The communities of the universe on which the value depends.
    pub fn support(&self, a: NodeId) -> Result<NumSet, NoMemory>
        requires { a < length self.now.nodes }
        ensures { IfOk result (IsSupport self.now a) }
    {
        let used = used_variables(self.alloc, &self.table, &self.universe, a.place())?;
        let support = marked_communities(self.alloc, &self.universe, &used)?;
        Ok(support)
    }

    /// Whether the value depends on a community outside the universe.
    pub fn needs_others(&self, a: NodeId) -> Result<bool, NoMemory>
        requires { a < length self.now.nodes }
        ensures needed { IfOk result (λ needed. needed ≡ true → DependsOnOthers self.now a) }
        ensures all { IfOk result (λ needed. DependsOnOthers self.now a → needed ≡ true) }
    {
        let used = used_variables(self.alloc, &self.table, &self.universe, a.place())?;
        let others = self.universe.as_slice().len();
        Ok(used[others])
    }

    /// The number of nodes that are reached from this one, itself included and constants left out.
    pub fn size(&self, a: NodeId) -> Result<usize, NoMemory>
        requires { a < length self.now.nodes }
        ensures { IfOk result (IsSize self.now.nodes a) }
    {
        let marks = reached(self.alloc, &self.table, a.place())?;
        let size = count_choices(&self.table, &marks);
        Ok(size)
    }
}

/// Whether two diagrams have one value on every set of communities. They do exactly if their numbers are
/// equal.
pub fn is_same(store: &Store, a: NodeId, b: NodeId) -> bool
    requires a_inside { a < length store.now.nodes }
    requires b_inside { b < length store.now.nodes }
    ensures numbers { result ≡ nat_eq a b }
    ensures same { result ≡ true → (set : List ℕ) → value_of store.now set a ≡ value_of store.now set b }
    ensures differ { result ≡ false → DifferOnSet store.now a b }
    ensures different { ((set : List ℕ) → IsAscending set → value_of store.now set a ≡ value_of store.now set b) → result ≡ true }
{
    let _known = store.len();
    a == b
}
