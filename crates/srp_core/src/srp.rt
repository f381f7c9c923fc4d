//! The stable routing problem of a destination.

ghost use Rattle.std.specs.Prelude.{◌≡◌, All};
ghost use Rattle.srp_core.specs.Acts.{KeepsSets};
ghost use Rattle.srp_core.specs.Problem.{IsProblem, count, with_init};

use crate::route::{Act, Route};
use base_kit::{Edge, List, Protocol, Text};
use std::alloc::Global;
use std::marker::Model;

/// The stable routing problem of a destination. It keeps its rules.
///
/// Routers go by place: `names`, `numbers` (AS numbers, 0 without BGP), `init` (initial routes) and
/// `lone` have one item for each. The edges go by importer, exporter and link, and `act` of an edge is
/// a place in `acts`, of which no two act alike.
#[derive(Drop)]
pub struct Srp {
    protocol: Protocol,
    names: List<Text>,
    numbers: List<u32>,
    init: List<Option<Route>>,
    lone: List<bool>,
    acts: List<Act>,
    edges: List<Edge>,
    alloc: Global,
}

impl Model for Srp {
    ghost use Rattle.srp_core.specs.Problem.{Problem, IsProblem};

    ghost Value = { Problem };

    ghost view = { λ s. record { protocol = s.protocol; names = s.names; numbers = s.numbers; init = s.init; lone = s.lone; acts = s.acts; edges = s.edges } };

    ghost invariant = { λ s. IsProblem (record { protocol = s.protocol; names = s.names; numbers = s.numbers; init = s.init; lone = s.lone; acts = s.acts; edges = s.edges }) };
}

impl Srp {
    /// The problem of these parts, which keep the rules. That the maps of the acts give sets is shown
    /// by the acts themselves.
    pub fn new(
        alloc: Global,
        protocol: Protocol,
        names: List<Text>,
        numbers: List<u32>,
        init: List<Option<Route>>,
        lone: List<bool>,
        acts: List<Act>,
        edges: List<Edge>,
    ) -> Srp
        requires { All KeepsSets acts → IsProblem (record { protocol = protocol; names = names; numbers = numbers; init = init; lone = lone; acts = acts; edges = edges }) }
        ensures { result ≡ record { protocol = protocol; names = names; numbers = numbers; init = init; lone = lone; acts = acts; edges = edges } }
    {
        read_acts(acts.as_slice());
        Srp {
            protocol,
            names,
            numbers,
            init,
            lone,
            acts,
            edges,
            alloc,
        }
    }

    /// Puts these initial routes in place of the problem's own. All else is as it was.
    pub fn restart(&mut self, init: List<Option<Route>>)
        requires { IsProblem self.old → IsProblem (with_init self.old init) }
        ensures { self.new ≡ with_init self.old init }
    {
        self.init = init;
    }

    /// Where the problem's parts lie.
    pub(crate) fn alloc(&self) -> Global {
        self.alloc
    }

    /// How many routers there are.
    pub fn count(&self) -> u32
        ensures count { result ≡ count self.now }
        ensures rules { IsProblem self.now }
    {
        self.numbers.len() as u32
    }

    /// The protocol.
    pub fn protocol(&self) -> Protocol
        ensures { result ≡ self.now.protocol }
    {
        self.protocol
    }

    /// The routers' names.
    pub fn names(&self) -> &List<Text>
        ensures { result.now ≡ self.now.names }
    {
        &self.names
    }

    /// The routers' AS numbers, 0 without BGP.
    pub fn numbers(&self) -> &[u32]
        ensures { result.now ≡ self.now.numbers }
    {
        self.numbers.as_slice()
    }

    /// The routers' initial routes.
    pub fn init(&self) -> &[Option<Route>]
        ensures { result.now ≡ self.now.init }
    {
        self.init.as_slice()
    }

    /// Which routers are lone.
    pub fn lone(&self) -> &[bool]
        ensures { result.now ≡ self.now.lone }
    {
        self.lone.as_slice()
    }

    /// The acts of the edges.
    pub fn acts(&self) -> &[Act]
        ensures { result.now ≡ self.now.acts }
    {
        self.acts.as_slice()
    }

    /// The edges, by importer, exporter and link.
    pub fn edges(&self) -> &[Edge]
        ensures { result.now ≡ self.now.edges }
    {
        self.edges.as_slice()
    }
}

ghost use Rattle.srp_core.specs.Acts.{MapsToSets, ChangesToSet};
ghost use Rattle.route_maps.specs.declared.plain.PlainEntry.{PlainEntry};

use cfg_ast::Change;
use route_maps::Plain;

fn read_change(change: &Option<Change>)
    ensures { ChangesToSet change.now }
{
    match change {
        Some(Change::Replace(by)) => {
            let _known = by.as_slice();
        }
        Some(Change::Append(_)) => {}
        Some(Change::Clear) => {}
        None => {}
    }
}

fn read_map(map: &Plain)
    ensures { MapsToSets map.now.entries }
{
    for entry in map.entries.as_slice() {
        read_change(&entry.change);
    }
}

#[tactic(auto, unfolding(crate::specs::Acts::KeepsSets))]
fn read_act(act: &Act)
    ensures { KeepsSets act.now }
{
    match act {
        Act::Import { out, into, .. } => {
            read_map(out);
            read_map(into);
        }
        Act::Cost(_) => {}
    }
}

// Reading the sets of all maps shows that they ascend.
fn read_acts(acts: &[Act])
    ensures { All KeepsSets acts.now }
{
    for act in acts {
        read_act(act);
    }
}
