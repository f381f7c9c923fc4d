//! The edges of an OSPF problem, and the costs that number their acts.

ghost use Rattle.std.specs.Prelude.{◌≡◌, ◌⊎◌, ◌<◌, ◌^◌, ◌++◌, ◌∷◌, [], Some, IfOk, IfSome, OnOk, length, map, slice_get};
ghost use Rattle.srp_core.specs.declared.route.Act.TheVariants as act;
ghost use Rattle.srp_build.specs.Costs.{cost_at, cost_of_hop, IsInterfaceAct, NumbersHops};
ghost use Rattle.srp_build.specs.PlacedEdges.{hop_of};
ghost use Rattle.distinct_values.specs.Distinct.{AreDistinct};

use crate::hops::Hop;
use base_kit::{Edge, List, NoMemory};
use cfg_ast::Router;
use indexmap::IndexSet;
use srp_core::Act;
use std::alloc::Global;
use std::marker::Model;

/// Costs that are all different, each numbered by its place.
#[derive(Drop)]
pub struct Costs {
    items: IndexSet<u16>,
}

/// The act of an importer's interface: the place of its cost.
#[derive(Clone, Copy)]
pub struct InterfaceAct {
    importer: u32,
    item: u32,
    act: u32,
}

impl Model for Costs {
    ghost use Rattle.std.specs.Prelude.{List, ℕ};
    ghost use Rattle.distinct_values.specs.Distinct.{AreDistinct};

    ghost Value = { List ℕ };

    ghost view = { λ c. c.items.keys };

    ghost invariant = { λ c. AreDistinct c.items.keys };
}

impl Costs {
    /// No costs yet.
    pub fn new(alloc: Global) -> Self
        ensures { result ≡ [] }
    {
        Costs {
            items: IndexSet::new(alloc),
        }
    }

    // The number of the cost, which is put last if it is not there yet.
    fn number(&mut self, cost: u16) -> Result<usize, NoMemory>
        ensures found { IfOk result (λ place. slice_get self.new place ≡ Some cost) }
        ensures grown { OnOk result ((self.new ≡ self.old) ⊎ (self.new ≡ self.old ++ cost ∷ [])) }
        ensures distinct { AreDistinct self.new }
    {
        let (place, _) = self.items.insert_full(cost)?;
        Ok(place)
    }

    // The act of a direction. Directions over one interface mostly follow one another, so the last act is
    // asked first.
    fn act_of(
        &mut self,
        routers: &[Router],
        last: Option<InterfaceAct>,
        hop: &Hop,
    ) -> Result<u32, NoMemory>
        requires few { length self.old < 2 ^ 32 }
        requires last { IfSome last (IsInterfaceAct routers.now self.old) }
        ensures found { IfOk result (λ act. slice_get self.new act ≡ Some (cost_of_hop routers.now hop.now)) }
        ensures grown { OnOk result ((self.new ≡ self.old) ⊎ (self.new ≡ self.old ++ cost_of_hop routers.now hop.now ∷ [])) }
        ensures distinct { AreDistinct self.new }
    {
        let _known = self.items.len();
        if let Some(known) = last {
            if known.importer == hop.importer && known.item == hop.importer_item {
                return Ok(known.act);
            }
        }
        let cost = cost_at(routers, hop.importer, hop.importer_item);
        let place = self.number(cost)?;
        Ok(place as u32)
    }

    /// An act for each cost, in order.
    pub fn acts(&self, alloc: Global) -> Result<List<Act>, NoMemory>
        ensures acts { IfOk result (λ acts. acts ≡ map act.Cost self.now) }
        ensures distinct { AreDistinct self.now }
    {
        let mut acts = List::new(alloc);
        for cost in self.items.as_slice() {
            acts.push(Act::Cost(*cost))?;
        }
        Ok(acts)
    }
}

// The cost of an interface by its places, 0 where there is none.
fn cost_at(routers: &[Router], router: u32, item: u32) -> u16
    ensures { result ≡ cost_at routers.now router item }
{
    let Some(router) = routers.get(router as usize) else {
        return 0;
    };
    let Some(interface) = router.interfaces.as_slice().get(item as usize) else {
        return 0;
    };
    interface.cost().unwrap_or(0)
}

/// Edges, and the costs that their acts number.
#[derive(Drop)]
pub struct Numbered {
    pub costs: Costs,
    pub edges: List<Edge>,
}

// The direction of an edge in the place of whose act the importer's interface stands.
fn hop_of(edge: &Edge) -> Hop
    ensures { result ≡ hop_of edge.now }
{
    Hop {
        importer: edge.importer,
        exporter: edge.exporter,
        link: edge.link,
        importer_item: edge.act,
        exporter_item: 0,
    }
}

/// The edges with acts for importers' interfaces. An act is the place of the interface's cost among the
/// different costs.
pub fn number_edges(
    alloc: Global,
    routers: &[Router],
    edges: Vec<Edge>,
) -> Result<Numbered, NoMemory>
    requires { length edges.items < 2 ^ 32 }
    ensures { IfOk result (λ n. NumbersHops routers.now n.costs (map hop_of edges.items) n.edges) }
{
    let mut edges = edges;
    let mut costs = Costs::new(alloc);
    let mut last = None;
    for place in 0..edges.len() {
        let edge = edges[place];
        let hop = hop_of(&edge);
        let act = costs.act_of(routers, last, &hop)?;
        edges[place] = Edge {
            importer: edge.importer,
            exporter: edge.exporter,
            act,
            link: edge.link,
        };
        last = Some(InterfaceAct {
            importer: edge.importer,
            item: edge.act,
            act,
        });
    }
    Ok(Numbered {
        costs,
        edges: List::from_vec(edges),
    })
}
