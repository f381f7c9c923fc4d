//! A graph over borrowed colors and edges.

ghost use Rattle.std.specs.Prelude.{◌≡◌, ◌<◌, ◌^◌, All, length};

use base_kit::{ActGraph, Edge};
use std::marker::Model;

/// A graph over borrowed colors and edges. An `ActGraph` is one over its own.
#[derive(Drop)]
pub struct GraphView<'a> {
    count: u32,
    colors: &'a [u32],
    edges: &'a [Edge],
    ghost one_color_each: { length colors.now ≡ count },
    ghost few_edges: { length edges.now < 2 ^ 32 },
    ghost importers_in_range: { All (λ e. e.importer < count) edges.now },
    ghost exporters_in_range: { All (λ e. e.exporter < count) edges.now },
}

impl<'a> Model for GraphView<'a> {
    ghost use Rattle.base_kit.specs.declared.act_graph.ActGraph.{ActGraph};

    ghost Value = { ActGraph };

    ghost view = { λ g. record { count = g.count; colors = g.colors.now; edges = g.edges.now; one_color_each = g.one_color_each; few_edges = g.few_edges; importers_in_range = g.importers_in_range; exporters_in_range = g.exporters_in_range } };
}

impl<'a> GraphView<'a> {
    /// The graph of these edges over as many routers as there are colors.
    pub fn over(colors: &'a [u32], edges: &'a [Edge]) -> Self
        requires few_routers { length colors.now < 2 ^ 32 }
        requires few_edges { length edges.now < 2 ^ 32 }
        requires importers_in_range { All (λ e. e.importer < length colors.now) edges.now }
        requires exporters_in_range { All (λ e. e.exporter < length colors.now) edges.now }
        ensures count { result.count ≡ length colors.now }
        ensures colors { result.colors ≡ colors.now }
        ensures edges { result.edges ≡ edges.now }
    {
        GraphView {
            count: colors.len() as u32,
            colors,
            edges,
        }
    }

    /// The same graph.
    pub fn of(graph: &'a ActGraph) -> Self
        ensures { result ≡ graph.now }
    {
        GraphView {
            count: graph.count,
            colors: graph.colors.as_slice(),
            edges: graph.edges.as_slice(),
        }
    }

    /// How many routers there are.
    pub fn count(&self) -> u32
        ensures { result ≡ self.now.count }
    {
        self.count
    }

    /// The routers' colors.
    pub fn colors(&self) -> &[u32]
        ensures { result.now ≡ self.now.colors }
    {
        self.colors
    }

    /// The edges.
    pub fn edges(&self) -> &[Edge]
        ensures { result.now ≡ self.now.edges }
    {
        self.edges
    }
}
