//! Calls that build routing problems and ask about them.

ghost use Rattle.std.specs.Prelude.{◌≡◌, ◌<◌, ◌↔◌, ℕ, List as Items, Contains, IfOk};
ghost use Rattle.base_kit.specs.Partition.{IsCoarsestOn};
ghost use Rattle.base_kit.specs.Prefixes.{Prefix};
ghost use Rattle.cfg_ast.specs.meaning.Classes.{classes_of};
ghost use Rattle.cfg_ast.specs.meaning.PolicyFaults.{communities_of};
ghost use Rattle.cfg_ast.specs.meaning.Topology.{links_of};
ghost use Rattle.dd_core.specs.Sets.{Grows};
ghost use Rattle.route_maps.specs.Within.{AreWithin};
ghost use Rattle.srp_core.specs.Candidates.{candidates};
ghost use Rattle.srp_core.specs.Problem.{count, key_of};
ghost use Rattle.srp_core.specs.ProblemOf.{IsProblemOf};
ghost use Rattle.srp_core.specs.Quotient.{IsCoarsest};
ghost use Rattle.srp_core.specs.Routes.{IsRouteOf, compare_keys};
ghost use Rattle.srp_core.specs.Stability.{AreLabels};

use base_kit::{ActGraph, List, NoMemory};
use cfg_ast::{DestClass, Link};
use cfg_check::Checked;
use dd_core::Store;
use srp_build::build;
use srp_core::{Candidate, Labels, Route, Srp};
use std::alloc::Global;
use std::cmp::Ordering;

/// The problem of a class.
pub fn problem_of(
    alloc: Global,
    net: &Checked,
    links: &List<Link>,
    class: &DestClass,
    store: &mut Store,
) -> Result<Srp, NoMemory>
    requires links { links.now ≡ links_of net.now.network }
    requires class { Contains (classes_of net.now.network) class.now }
    requires known { AreWithin store.old.universe (communities_of net.now.network) }
    ensures grows { Grows store.old store.new }
    ensures problem { IfOk result (λ srp. (p : Prefix) → Contains class.now.prefixes p → IsProblemOf net.now.network p srp) }
{
    build(alloc, net, links, class, store)
}

/// How two routes compare: Less where the first is better.
pub fn preferred(srp: &Srp, a: &Route, b: &Route) -> Ordering
    requires first { IsRouteOf srp.now.protocol a.now }
    requires second { IsRouteOf srp.now.protocol b.now }
    ensures { result ≡ compare_keys (key_of srp.now a.now) (key_of srp.now b.now) }
{
    srp.key_cmp(a, b)
}

/// The routes that a router may take.
pub fn routes_for(srp: &Srp, labels: &Labels, u: u32) -> Result<List<Candidate>, NoMemory>
    requires router { u < count srp.now }
    requires labels { AreLabels srp.now labels.now }
    ensures { IfOk result (λ list. list ≡ candidates srp.now labels.now u) }
{
    srp.candidates(labels, u)
}

/// The graph whose partitions are those of the problem.
pub fn graph_of(srp: &Srp) -> Result<ActGraph, NoMemory>
    ensures { IfOk result (λ graph. (groups : Items ℕ) → IsCoarsest srp.now groups ↔ IsCoarsestOn graph groups) }
{
    srp.graph()
}
