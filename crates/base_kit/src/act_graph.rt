//! Graphs whose edges are numbered by what they do.

ghost use Rattle.std.specs.Prelude.{◌≡◌, ◌<◌, ◌^◌, All, length};

use crate::List;

/// An edge: the importer takes what the exporter has over a link, in the way that `act` numbers.
#[derive(Clone, Copy, Debug, PartialEq, Eq)]
pub struct Edge {
    pub importer: u32,
    pub exporter: u32,
    pub act: u32,
    pub link: u32,
}

/// A graph over the routers 0 to `count` - 1, one color for each, with fewer than 2^32 edges whose
/// ends are such routers.
#[derive(Drop)]
pub struct ActGraph {
    pub count: u32,
    pub colors: List<u32>,
    pub edges: List<Edge>,
    pub ghost one_color_each: { length colors ≡ count },
    pub ghost few_edges: { length edges < 2 ^ 32 },
    pub ghost importers_in_range: { All (λ e. e.importer < count) edges },
    pub ghost exporters_in_range: { All (λ e. e.exporter < count) edges },
}
