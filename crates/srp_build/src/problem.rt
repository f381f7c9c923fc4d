//! The problem of a class.

ghost use Rattle.std.specs.Prelude.{◌≡◌, ◌<◌, ◌^◌, Some, IfOk, OnOk, OnErr, Contains, length};
ghost use Rattle.base_kit.specs.Prefixes.{Prefix};
ghost use Rattle.base_kit.specs.declared.protocol.Protocol.TheVariants as protocol;
ghost use Rattle.cfg_ast.specs.declared.classes.DestClass.{DestClass};
ghost use Rattle.cfg_ast.specs.meaning.Classes.{classes_of};
ghost use Rattle.cfg_ast.specs.meaning.PolicyFaults.{communities_of};
ghost use Rattle.cfg_ast.specs.meaning.Topology.{links_of};
ghost use Rattle.dd_core.specs.Sets.{Grows};
ghost use Rattle.route_maps.specs.Within.{AreWithin};
ghost use Rattle.srp_core.specs.Problem.{with_init};
ghost use Rattle.srp_core.specs.ProblemOf.{IsProblemOf};
ghost use Rattle.srp_build.specs.ActOrder.{AreActsByFirstUse};
ghost use Rattle.srp_build.specs.Built.{IsBuiltFor};
ghost use Rattle.srp_build.specs.Directions.{AreOfAdjacencies, AreDirectionsOf};
ghost use Rattle.srp_build.specs.FirstActs.{HasFirstActs};
ghost use Rattle.srp_build.specs.Ospf.{IsOspf};

use crate::bgp_problem::bgp_problem;
use crate::costs::{Costs, Numbered};
use crate::directions::{Directions, directions_of};
use crate::routers::{names_of, none_lone, numbers_of, starts_of};
use base_kit::{Edge, List, NoMemory, Protocol};
use cfg_ast::{DestClass, Link, Network};
use cfg_check::Checked;
use dd_core::Store;
use srp_core::Srp;
use std::alloc::Global;

// The problem of an OSPF network, with an edge for each direction of each adjacency. Its acts are the
// different costs of the edges.
fn ospf_problem(
    alloc: Global,
    network: &Network,
    costs: &Costs,
    edges: List<Edge>,
    class: &DestClass,
) -> Result<Srp, NoMemory>
    requires ospf { IsOspf network.now }
    requires directions { AreOfAdjacencies network.now (record { costs = costs.now; edges = edges }) }
    requires class { Contains (classes_of network.now) class.now }
    ensures problem { IfOk result (λ problem. (p : Prefix) → Contains class.now.prefixes p → IsProblemOf network.now p problem) }
    ensures acts { IfOk result AreActsByFirstUse }
    ensures protocol { IfOk result (λ problem. problem.protocol ≡ protocol.Ospf) }
{
    let routers = network.routers.as_slice();
    let names = names_of(alloc, routers)?;
    let numbers = numbers_of(alloc, routers)?;
    let init = starts_of(alloc, routers, class.origins.as_slice())?;
    let lone = none_lone(alloc, routers)?;
    let acts = costs.acts(alloc)?;
    let problem = Srp::new(
        alloc,
        Protocol::Ospf,
        names,
        numbers,
        init,
        lone,
        acts,
        edges,
    );
    Ok(problem)
}

// The problem of a checked OSPF network, whose directions have these edges and costs.
fn problem_of_adjacencies(
    alloc: Global,
    net: &Checked,
    costs: &Costs,
    edges: List<Edge>,
    class: &DestClass,
) -> Result<Srp, NoMemory>
    requires directions { AreOfAdjacencies net.now.network (record { costs = costs.now; edges = edges }) }
    requires class { Contains (classes_of net.now.network) class.now }
    ensures problem { IfOk result (λ problem. (p : Prefix) → Contains class.now.prefixes p → IsProblemOf net.now.network p problem) }
    ensures acts { IfOk result AreActsByFirstUse }
    ensures first { IfOk result (λ problem. (p : Prefix) → Contains class.now.prefixes p → HasFirstActs net.now.network p problem) }
{
    ospf_problem(alloc, net.network(), costs, edges, class)
}

/// The problem of a checked network for every prefix of one of its classes. In OSPF it has an edge for
/// each direction of each link, and its acts are their different costs. In BGP it has an edge for each
/// direction over which some set of communities is imported, and edges that import every set alike have
/// one act: the maps of the first such edge. Acts stand in the order of the first edges that have them.
/// The directions are those of the network. The store's universe has all communities that the network
/// names, and the store may grow.
pub fn build_over(
    alloc: Global,
    net: &Checked,
    directions: &Directions,
    class: &DestClass,
    store: &mut Store,
) -> Result<Srp, NoMemory>
    requires directions { AreDirectionsOf net.now.network directions.now }
    requires class { Contains (classes_of net.now.network) class.now }
    requires known { AreWithin store.old.universe (communities_of net.now.network) }
    ensures grows { Grows store.old store.new }
    ensures problem { IfOk result (λ problem. (p : Prefix) → Contains class.now.prefixes p → IsProblemOf net.now.network p problem) }
    ensures acts { IfOk result AreActsByFirstUse }
    ensures first { IfOk result (λ problem. (p : Prefix) → Contains class.now.prefixes p → HasFirstActs net.now.network p problem) }
{
    match directions {
        Directions::OfSessions(found) => bgp_problem(alloc, net, found, class, store),
        Directions::OfAdjacencies(numbered) => {
            let edges = Vec::from_slice(alloc, numbered.edges.as_slice())?;
            let edges = List::from_vec(edges);
            problem_of_adjacencies(alloc, net, &numbered.costs, edges, class)
        }
    }
}

/// The problem as `build_over` gives it, from the links of the network. For several classes, make the
/// directions once and call `build_over`.
pub fn build(
    alloc: Global,
    net: &Checked,
    links: &List<Link>,
    class: &DestClass,
    store: &mut Store,
) -> Result<Srp, NoMemory>
    requires links { links.now ≡ links_of net.now.network }
    requires class { Contains (classes_of net.now.network) class.now }
    requires known { AreWithin store.old.universe (communities_of net.now.network) }
    ensures grows { Grows store.old store.new }
    ensures problem { IfOk result (λ problem. (p : Prefix) → Contains class.now.prefixes p → IsProblemOf net.now.network p problem) }
    ensures acts { IfOk result AreActsByFirstUse }
    ensures first { IfOk result (λ problem. (p : Prefix) → Contains class.now.prefixes p → HasFirstActs net.now.network p problem) }
{
    match directions_of(alloc, net, links)? {
        Directions::OfSessions(found) => bgp_problem(alloc, net, &found, class, store),
        Directions::OfAdjacencies(numbered) => {
            let Numbered { costs, edges } = numbered;
            problem_of_adjacencies(alloc, net, &costs, edges, class)
        }
    }
}

/// The problem of another class of an OSPF network: its routers originate otherwise, and all else is as
/// it was. After an error the problem is as it was.
pub fn restart(
    alloc: Global,
    net: &Checked,
    class: &DestClass,
    problem: &mut Srp,
) -> Result<(), NoMemory>
    requires ospf { problem.old.protocol ≡ protocol.Ospf }
    requires built { (other : DestClass) × Contains (classes_of net.now.network) other × IsBuiltFor net.now.network other problem.old }
    requires class { Contains (classes_of net.now.network) class.now }
    ensures built { OnOk result (IsBuiltFor net.now.network class.now problem.new) }
    ensures kept { problem.new ≡ with_init problem.old problem.new.init }
    ensures err { OnErr result (problem.new ≡ problem.old) }
{
    let routers = net.network().routers.as_slice();
    let init = starts_of(alloc, routers, class.origins.as_slice())?;
    problem.restart(init);
    Ok(())
}
