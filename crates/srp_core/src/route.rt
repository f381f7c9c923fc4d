//! Routes, acts and candidates.

ghost use Rattle.std.specs.Prelude.{◌≡◌, IfOk};
ghost use Rattle.srp_core.specs.Routes.{is_on};

use base_kit::{List, NoMemory, NumSet};
use route_maps::{Plain, map_copy};
use std::alloc::Global;

/// A route to the destination.
#[derive(Drop)]
pub enum Route {
    /// Its preference, the AS numbers that it passed, the latest first, and its communities.
    Bgp {
        lp: u32,
        path: List<u32>,
        comms: NumSet,
    },
    /// Its cost.
    Ospf {
        cost: u32,
    },
}

/// What an edge does to the route of its exporter.
#[derive(Drop)]
pub enum Act {
    /// The exporter's map, whether the exporter sends communities, and the importer's map.
    Import {
        out: Plain,
        sends: bool,
        into: Plain,
    },
    /// The cost that the importer adds.
    Cost(u16),
}

/// A route that a router may take: its initial route, or that of an edge, by its place.
#[derive(Drop)]
pub struct Candidate {
    pub edge: Option<u32>,
    pub route: Route,
}

// Whether the number is on the path.
fn is_on(path: &[u32], number: u32) -> bool
    ensures { result ≡ is_on number path.now }
{
    path.iter().any(|other| *other == number)
}

impl Route {
    ghost use Rattle.srp_core.specs.Routes.{is_on, path_of};

    /// The same route.
    pub fn copy(&self, alloc: Global) -> Result<Route, NoMemory>
        ensures { IfOk result (λ route. route ≡ self.now) }
    {
        match self {
            Route::Bgp { lp, path, comms } => {
                let numbers = Vec::from_slice(alloc, path.as_slice())?;
                let comms = comms.copy()?;
                Ok(Route::Bgp {
                    lp: *lp,
                    path: List::from_vec(numbers),
                    comms,
                })
            }
            Route::Ospf { cost } => Ok(Route::Ospf { cost: *cost }),
        }
    }

    /// Whether the number is on the route's path.
    pub fn has_on_path(&self, number: u32) -> bool
        ensures { result ≡ is_on number (path_of self.now) }
    {
        match self {
            Route::Bgp { path, .. } => is_on(path.as_slice(), number),
            Route::Ospf { .. } => false,
        }
    }
}

impl Act {
    /// The same act.
    ///
    /// # Errors
    /// Out of memory.
    pub fn copy(&self, alloc: Global) -> Result<Act, NoMemory>
        ensures { IfOk result (λ act. act ≡ self.now) }
    {
        match self {
            Act::Import { out, sends, into } => Ok(Act::Import {
                out: map_copy(alloc, out)?,
                sends: *sends,
                into: map_copy(alloc, into)?,
            }),
            Act::Cost(cost) => Ok(Act::Cost(*cost)),
        }
    }
}
