//! The number of a node.

ghost use Rattle.std.specs.Prelude.{◌≡◌, ℕ};

use std::marker::Model;

/// The number of a node in its store. A contract sees it as the number.
#[derive(Clone, Copy, Debug, PartialEq, Eq, PartialOrd, Ord, Hash)]
pub struct NodeId(pub usize);

impl Model for NodeId {
    ghost Value = { ℕ };

    ghost view = { λ n. n.0 };

    ghost inverse = { λ n. record { 0 = n } };
}

impl NodeId {
    pub(crate) fn new(place: usize) -> NodeId
        ensures { result ≡ place }
    {
        NodeId(place)
    }

    /// The number.
    pub fn place(self) -> usize
        ensures { result ≡ self }
    {
        self.0
    }
}
