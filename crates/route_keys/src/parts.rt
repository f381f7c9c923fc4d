//! The parts of a route.

ghost use Rattle.std.specs.Prelude.{◌≡◌};
ghost use Rattle.srp_core.specs.Routes.{preference_of, size_of, path_of, comms_of};
ghost use Rattle.route_keys.specs.Same.{same_route};

use srp_core::Route;

/// The preference of a route. A cost has none, and 0 stands for it.
pub fn preference_of(route: &Route) -> u32
    ensures { result ≡ preference_of route.now }
{
    match route {
        Route::Bgp { lp, .. } => *lp,
        Route::Ospf { .. } => 0,
    }
}

/// The size of a route: the length of its path, or its cost.
pub fn size_of(route: &Route) -> u64
    ensures { result ≡ size_of route.now }
{
    match route {
        Route::Bgp { path, .. } => path.len() as u64,
        Route::Ospf { cost } => u64::from(*cost),
    }
}

/// The AS numbers on the path of a route, none for a cost.
pub fn path_of(route: &Route) -> &[u32]
    ensures { result.now ≡ path_of route.now }
{
    match route {
        Route::Bgp { path, .. } => path.as_slice(),
        Route::Ospf { .. } => &[],
    }
}

/// The communities of a route, none for a cost.
pub fn comms_of(route: &Route) -> &[u32]
    ensures { result.now ≡ comms_of route.now }
{
    match route {
        Route::Bgp { comms, .. } => comms.as_slice(),
        Route::Ospf { .. } => &[],
    }
}

/// Whether two routes are equal in all their parts.
pub fn same_route(a: &Route, b: &Route) -> bool
    ensures { result ≡ same_route a.now b.now }
{
    match (a, b) {
        (
            Route::Bgp { lp, path, comms },
            Route::Bgp {
                lp: other_lp,
                path: other_path,
                comms: other_comms,
            },
        ) => {
            *lp == *other_lp
                && path.as_slice() == other_path.as_slice()
                && comms.as_slice() == other_comms.as_slice()
        }
        (Route::Ospf { cost }, Route::Ospf { cost: other }) => *cost == *other,
        (Route::Bgp { .. }, Route::Ospf { .. }) => false,
        (Route::Ospf { .. }, Route::Bgp { .. }) => false,
    }
}
