//! Routes whose paths share their tails.

ghost use Rattle.std.specs.Prelude.{◌≡◌, ◌&&◌, IfOk, nat_eq};
ghost use Rattle.std.specs.HashSet.{contains};
ghost use Rattle.srp_core.specs.Routes.{chosen, comms_of, is_on, path_of, preference_of, size_of};
ghost use Rattle.shared_routes.specs.Parts.{route_of};

use crate::paths::SharedPath;
use base_kit::{NoMemory, NumSet};
use route_keys::LoneNumbers;
use srp_core::Route;
use std::alloc::Global;
use std::marker::Model;

/// The parts of a route to the destination.
#[derive(Drop)]
pub enum RouteParts {
    /// Its preference, the AS numbers that it passed, the latest first, and its communities.
    Bgp {
        lp: u32,
        path: SharedPath,
        comms: NumSet,
    },
    /// Its cost.
    Ospf {
        cost: u32,
    },
}

/// A route whose path shares its tail with others.
#[derive(Drop)]
pub struct SharedRoute {
    parts: RouteParts,
}

impl Model for SharedRoute {
    ghost use Rattle.srp_core.specs.declared.route.Route.{Route};

    ghost Value = { Route };

    ghost use Rattle.shared_routes.specs.Parts.{route_of};

    ghost view = { λ r. route_of r.parts };
}

impl SharedRoute {
    /// The route of these parts.
    pub fn from_parts(parts: RouteParts) -> SharedRoute
        ensures { result ≡ route_of parts }
    {
        SharedRoute { parts }
    }

    /// The route's parts.
    pub fn parts(&self) -> &RouteParts
        ensures { route_of result.now ≡ self.now }
    {
        &self.parts
    }

    /// The same route, whose path shares nothing.
    pub fn from_route(alloc: Global, route: &Route) -> Result<SharedRoute, NoMemory>
        ensures { IfOk result (λ shared. shared ≡ route.now) }
    {
        match route {
            Route::Bgp { lp, path, comms } => {
                let path = SharedPath::from_slice(alloc, path.as_slice())?;
                let comms = comms.copy()?;
                Ok(SharedRoute::from_parts(RouteParts::Bgp {
                    lp: *lp,
                    path,
                    comms,
                }))
            }
            Route::Ospf { cost } => Ok(SharedRoute::from_parts(RouteParts::Ospf { cost: *cost })),
        }
    }

    /// The same route with a path of its own.
    pub fn plain(&self, alloc: Global) -> Result<Route, NoMemory>
        ensures { IfOk result (λ route. route ≡ self.now) }
    {
        match &self.parts {
            RouteParts::Bgp { lp, path, comms } => {
                let path = path.numbers(alloc)?;
                let comms = comms.copy()?;
                Ok(Route::Bgp {
                    lp: *lp,
                    path,
                    comms,
                })
            }
            RouteParts::Ospf { cost } => Ok(Route::Ospf { cost: *cost }),
        }
    }

    /// The same route. Its path shares the tail.
    pub fn copy(&self, alloc: Global) -> Result<SharedRoute, NoMemory>
        ensures { IfOk result (λ route. route ≡ self.now) }
    {
        match &self.parts {
            RouteParts::Bgp { lp, path, comms } => {
                let path = path.copy(alloc)?;
                let comms = comms.copy()?;
                Ok(SharedRoute::from_parts(RouteParts::Bgp {
                    lp: *lp,
                    path,
                    comms,
                }))
            }
            RouteParts::Ospf { cost } => {
                Ok(SharedRoute::from_parts(RouteParts::Ospf { cost: *cost }))
            }
        }
    }

    /// Whether the number is on the route's path.
    pub fn has_on_path(&self, number: u32) -> bool
        ensures { result ≡ is_on number (path_of self.now) }
    {
        match &self.parts {
            RouteParts::Bgp { path, .. } => path.has(number),
            RouteParts::Ospf { .. } => false,
        }
    }
}

/// The preference of a route. A cost has none, and 0 stands for it.
pub fn preference_of(route: &SharedRoute) -> u32
    ensures { result ≡ preference_of route.now }
{
    match &route.parts {
        RouteParts::Bgp { lp, .. } => *lp,
        RouteParts::Ospf { .. } => 0,
    }
}

/// The size of a route: the length of its path, or its cost.
pub fn size_of(route: &SharedRoute) -> u64
    ensures { result ≡ size_of route.now }
{
    match &route.parts {
        RouteParts::Bgp { path, .. } => path.len() as u64,
        RouteParts::Ospf { cost } => u64::from(*cost),
    }
}

/// The communities of a route, none for a cost.
pub fn comms_of(route: &SharedRoute) -> &[u32]
    ensures { result.now ≡ comms_of route.now }
{
    match &route.parts {
        RouteParts::Bgp { comms, .. } => comms.as_slice(),
        RouteParts::Ospf { .. } => &[],
    }
}

/// The numbers on the path of a route that are in the set, ascending.
#[tactic(auto, unfolding(srp_core::specs::Routes::chosen))]
pub fn lone_on(
    alloc: Global,
    numbers: &LoneNumbers,
    route: &SharedRoute,
) -> Result<NumSet, NoMemory>
    ensures { IfOk result (λ set. set ≡ chosen (contains nat_eq numbers.now) (path_of route.now)) }
{
    match &route.parts {
        RouteParts::Bgp { lp, path, .. } => {
            // (the path alone decides)
            let bare = Route::Bgp {
                lp: *lp,
                path: path.numbers(alloc)?,
                comms: NumSet::new(alloc),
            };
            route_keys::lone_on(alloc, numbers, &bare)
        }
        RouteParts::Ospf { .. } => Ok(NumSet::new(alloc)),
    }
}
