//! The nodes of a store, each once.

ghost use Rattle.std.specs.Prelude.{◌≡◌, ◌<◌, ◌++◌, ◌∷◌, [], Some, length, slice_get, IfOk, OnErr, ◌⊎◌};

use indexmap::IndexMap;
use std::alloc::{AllocFailed, Global};
use std::marker::Model;

/// A node of a diagram: a constant, or a choice between two nodes by a variable.
#[derive(Clone, Copy, Debug, PartialEq, Eq, Hash)]
pub enum Node {
    Constant(bool),
    Choice {
        variable: usize,
        high: usize,
        low: usize,
    },
}

/// Nodes that are all different, each named by its place.
#[derive(Drop)]
pub struct Table {
    nodes: IndexMap<Node, ()>,
}

impl Model for Table {
    ghost use Rattle.std.specs.Prelude.{List};
    ghost use Rattle.indexmap.specs.IndexMap.{keys};
    ghost use Rattle.dd_core.specs.declared.table.Node.{Node};

    ghost Value = { List Node };

    ghost view = { λ t. keys t.nodes };

    ghost use Rattle.distinct_values.specs.Distinct.{AreDistinct};

    ghost invariant = { λ t. AreDistinct (keys t.nodes) };
}

impl Table {
    ghost use Rattle.distinct_values.specs.Distinct.{AreDistinct};

    pub fn new(alloc: Global) -> Self
        ensures { result ≡ [] }
    {
        Table {
            nodes: IndexMap::new(alloc),
        }
    }

    pub fn len(&self) -> usize
        ensures len { result ≡ length self.now }
        ensures distinct { AreDistinct self.now }
    {
        self.nodes.len()
    }

    pub fn node(&self, place: usize) -> Node
        requires { place < length self.now }
        ensures { slice_get self.now place ≡ Some result }
    {
        self.nodes.keys().as_slice()[place]
    }

    /// The place of the node, which is put last if it is not there yet.
    pub fn intern(&mut self, node: Node) -> Result<usize, AllocFailed<(Node, ())>>
        ensures found { IfOk result (λ place. slice_get self.new place ≡ Some node) }
        ensures grown { (self.new ≡ self.old) ⊎ (self.new ≡ self.old ++ node ∷ []) }
        ensures err { OnErr result (self.new ≡ self.old) }
        ensures distinct { AreDistinct self.new }
    {
        let (place, _) = self.nodes.insert_full(node, ())?;
        Ok(place)
    }
}
