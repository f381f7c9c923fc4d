//! Whether two route maps of a router act alike.

ghost use Rattle.std.specs.Prelude.{◌≡◌, Contains, IfOk, true};
ghost use Rattle.cfg_ast.specs.meaning.PolicyFaults.{communities_of};
ghost use Rattle.dd_core.specs.Sets.{Grows};
ghost use Rattle.library_uses.specs.InMaps.{TakeAlike, taken_by};
ghost use Rattle.policy_dd.specs.Edge.{IsEdgeFn};

use base_kit::{NoMemory, Prefix, Text};
use cfg_ast::Router;
use cfg_check::Checked;
use dd_core::Store;
use policy_dd::laws::edge_kept;
use policy_dd::{EdgeFn, edge_fn, same};
use specialize::laws::maps_stay_within;
use specialize::policy;
use std::alloc::Global;

/// What a router of the network takes for a prefix by one of its route maps, from a neighbour that sends
/// communities and has no map of its own. The store has the communities that the network names.
pub fn taken(
    alloc: Global,
    net: &Checked,
    store: &mut Store,
    router: &Router,
    map: &Text,
    p: Prefix,
) -> Result<EdgeFn, NoMemory>
    requires known { store.old.universe ≡ communities_of net.now.network }
    requires router { Contains net.now.network.routers router.now }
    ensures grows { Grows store.old store.new }
    ensures edge { IfOk result (λ edge. IsEdgeFn store.new edge (taken_by router.now map.now p)) }
{
    maps_stay_within();
    let out = policy(alloc, router, None, None, p, false)?;
    let into = policy(alloc, router, Some(map), None, p, true)?;
    edge_fn(alloc, store, &out, true, &into)
}

/// Whether a router of the network takes every route for a prefix alike by two of its route maps: whatever
/// communities the route carries, also those that no line names.
pub fn act_alike(
    alloc: Global,
    net: &Checked,
    router: &Router,
    first: &Text,
    second: &Text,
    p: Prefix,
) -> Result<bool, NoMemory>
    requires { Contains net.now.network.routers router.now }
    ensures alike { IfOk result (λ alike. alike ≡ true → TakeAlike router.now first.now second.now p) }
    ensures only { IfOk result (λ alike. TakeAlike router.now first.now second.now p → alike ≡ true) }
{
    edge_kept();
    let mut store = Store::new(alloc, net.communities())?;
    let one = taken(alloc, net, &mut store, router, first, p)?;
    let other = taken(alloc, net, &mut store, router, second, p)?;
    Ok(same(&store, &one, &other))
}
