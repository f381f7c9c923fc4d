//! The routers that originate each prefix.

ghost use Rattle.std.specs.Prelude.{◌≡◌, ◌<◌, ◌^◌, None, IfOk, OnOk, option_copied, filter_map, length};
ghost use Rattle.std.specs.BTreeMap.{get};
ghost use Rattle.std.specs.BTreeSet.{contains};
ghost use Rattle.std.specs.List.{enumerate_from};
ghost use Rattle.base_kit.specs.Prefixes.{Prefix as Block};
ghost use Rattle.dest_classes.specs.Routes.{prefix_cmp, is_named, AreNamed, route_to, route_at, routes_on, ends_with_router, noted, all_noted, noted_from};

use base_kit::{List, NoMemory, Prefix};
use cfg_ast::{BgpProcess, Interface, Network, Origin, Router};
use cfg_check::AreaIndex;
use std::alloc::Global;
use std::collections::{BTreeMap, BTreeSet};

/// A prefix that a router originates, with its cost in OSPF.
#[derive(Clone, Copy, Debug)]
pub struct Route {
    pub prefix: Prefix,
    pub cost: Option<u16>,
}

/// The routers that originate each prefix, in order.
pub type Originators = BTreeMap<Prefix, List<Origin>>;

// The prefixes of the `network` lines of a BGP process.
fn named(alloc: Global, process: &BgpProcess) -> Result<BTreeSet<Prefix>, NoMemory>
    ensures { IfOk result (λ set. (p : Block) → contains prefix_cmp set p ≡ is_named process.now.networks p) }
{
    let mut prefixes = BTreeSet::new(alloc);
    for line in process.networks.as_slice() {
        prefixes.insert(line.prefix)?;
    }
    Ok(prefixes)
}

// Notes that a router originates a prefix, once for each prefix.
fn note(
    alloc: Global,
    originators: &mut Originators,
    router: u32,
    route: Route,
) -> Result<(), NoMemory>
    ensures { OnOk result ((p : Block) → get prefix_cmp originators.new p ≡ noted p router route (get prefix_cmp originators.old p)) }
{
    let origins = originators.entry(route.prefix)?.or_insert(List::new(alloc));
    if !ends_with_router(origins.as_slice(), router) {
        origins.push(Origin {
            router,
            cost: route.cost,
        })?;
    }
    Ok(())
}

// The prefixes of the `network` lines of the router's BGP process, if it has one.
fn named_in_bgp(alloc: Global, router: &Router) -> Result<Option<BTreeSet<Prefix>>, NoMemory>
    ensures { IfOk result (AreNamed router.now.bgp) }
{
    match &router.bgp {
        Some(process) => Ok(Some(named(alloc, process)?)),
        None => Ok(None),
    }
}

// What an interface makes its router originate.
fn route_at(
    index: &AreaIndex,
    named: Option<&BTreeSet<Prefix>>,
    interface: &Interface,
) -> Option<Route>
    requires { AreNamed index.now.router.now.bgp (option_copied named) }
    ensures { result ≡ route_at index.now.router.now interface.now }
{
    let prefix = interface.up_address()?.subnet();
    match named {
        Some(prefixes) => {
            if !prefixes.contains(&prefix) {
                return None;
            }
            Some(Route { prefix, cost: None })
        }
        None => {
            if !index.has_in_area(interface) {
                return None;
            }
            Some(Route {
                prefix,
                cost: interface.cost(),
            })
        }
    }
}

// Notes what the interfaces make their router originate.
fn note_interfaces(
    alloc: Global,
    originators: &mut Originators,
    place: u32,
    index: &AreaIndex,
    named: Option<&BTreeSet<Prefix>>,
    interfaces: &[Interface],
) -> Result<(), NoMemory>
    requires { AreNamed index.now.router.now.bgp (option_copied named) }
    ensures { OnOk result ((p : Block) → get prefix_cmp originators.new p ≡ all_noted p place (filter_map (route_at index.now.router.now) interfaces.now) (get prefix_cmp originators.old p)) }
{
    for interface in interfaces {
        if let Some(route) = route_at(index, named, interface) {
            note(alloc, originators, place, route)?;
        }
    }
    Ok(())
}

// Notes all prefixes that a router originates.
fn note_router(
    alloc: Global,
    originators: &mut Originators,
    place: u32,
    router: &Router,
) -> Result<(), NoMemory>
    ensures { OnOk result ((p : Block) → get prefix_cmp originators.new p ≡ all_noted p place (routes_on router.now) (get prefix_cmp originators.old p)) }
{
    let named = named_in_bgp(alloc, router)?;
    let index = AreaIndex::of(alloc, router)?;
    let interfaces = router.interfaces.as_slice();
    note_interfaces(
        alloc,
        originators,
        place,
        &index,
        named.as_ref(),
        interfaces,
    )?;
    Ok(())
}

/// The routers that originate each prefix of a network.
pub fn originators(alloc: Global, net: &Network) -> Result<Originators, NoMemory>
    requires { length net.now.routers < 2 ^ 32 }
    ensures { IfOk result (λ m. (p : Block) → get prefix_cmp m p ≡ noted_from p (enumerate_from 0 net.now.routers) None) }
{
    let mut originators = BTreeMap::new(alloc);
    for (place, router) in net.routers.as_slice().iter().enumerate() {
        note_router(alloc, &mut originators, place as u32, router)?;
    }
    Ok(originators)
}

fn ends_with_router(origins: &[Origin], router: u32) -> bool
    ensures { result ≡ ends_with_router router origins.now }
{
    match origins.last() {
        Some(origin) => origin.router == router,
        None => false,
    }
}
