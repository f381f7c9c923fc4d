//! A link between two groups, and the list of such links.
//!
//! A link names edges of the graph by their places. `act_at` gives the act of the edge at a place.

ghost use Rattle.std.specs.Prelude.{◌≡◌};
ghost use Rattle.abstract_net.specs.Carried.{act_at};

use base_kit::{Edge, List};

/// A link between two groups, `low` before `high`, and the edges that it stands for into each of them,
/// by their places in the graph. At least one of the two is there.
#[derive(Clone, Copy, Debug, PartialEq, Eq)]
pub struct QLink {
    pub low: u32,
    pub high: u32,
    pub to_low: Option<u32>,
    pub to_high: Option<u32>,
}

/// The links of a network of groups, by their lower and then their higher group.
#[derive(Drop)]
pub struct Quotient {
    pub links: List<QLink>,
}

/// The act of the edge at a place, 0 where no edge stands there.
pub fn act_at(edges: &[Edge], place: u32) -> u32
    ensures { result ≡ act_at edges.now place }
{
    match edges.get(place as usize) {
        Some(edge) => edge.act,
        None => 0,
    }
}
