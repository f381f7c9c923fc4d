//! Names, AS numbers and initial routes of the routers.

ghost use Rattle.std.specs.Prelude.{◌≡◌, ◌<◌, ◌^◌, IfOk, length, map};
ghost use Rattle.std.specs.Option.{option_map};
ghost use Rattle.cfg_ast.specs.declared.network.Router.{Router};
ghost use Rattle.srp_core.specs.ProblemOf.{as_number_of, route_from};
ghost use Rattle.srp_build.specs.Starts.{first_cost_at, origins_behind, starts_from, none_lone};

use base_kit::{List, NoMemory, NumSet, Text};
use cfg_ast::{Origin, Router};
use srp_core::Route;
use std::alloc::Global;

/// The names of the routers.
pub fn names_of(alloc: Global, routers: &[Router]) -> Result<List<Text>, NoMemory>
    ensures { IfOk result (λ names. names ≡ map (λ (router : Router). router.name) routers.now) }
{
    let mut names = List::from_vec(Vec::with_capacity(alloc, routers.len())?);
    for router in routers {
        names.push(Text::copy_of(alloc, router.name.as_str())?)?;
    }
    Ok(names)
}

fn as_number_of(router: &Router) -> u32
    ensures { result ≡ as_number_of router.now }
{
    match &router.bgp {
        Some(process) => process.number,
        None => 0,
    }
}

/// The AS numbers of the routers, 0 without BGP.
pub fn numbers_of(alloc: Global, routers: &[Router]) -> Result<List<u32>, NoMemory>
    ensures { IfOk result (λ numbers. numbers ≡ map as_number_of routers.now) }
{
    let mut numbers = List::from_vec(Vec::with_capacity(alloc, routers.len())?);
    for router in routers {
        numbers.push(as_number_of(router))?;
    }
    Ok(numbers)
}

/// For each router, that it is not lone.
pub fn none_lone(alloc: Global, routers: &[Router]) -> Result<List<bool>, NoMemory>
    ensures { IfOk result (λ lone. lone ≡ none_lone routers.now) }
{
    let mut lone = List::from_vec(Vec::with_capacity(alloc, routers.len())?);
    for _router in routers {
        lone.push(false)?;
    }
    Ok(lone)
}

fn route_from(alloc: Global, router: &Router, cost: Option<u16>) -> Route
    ensures { result ≡ route_from router.now cost }
{
    match cost {
        Some(cost) => Route::Ospf {
            cost: u32::from(cost),
        },
        None => Route::Bgp {
            lp: router.default_preference(),
            path: List::new(alloc),
            comms: NumSet::new(alloc),
        },
    }
}

fn start_from(alloc: Global, router: &Router, cost: Option<Option<u16>>) -> Option<Route>
    ensures { result ≡ option_map (route_from router.now) cost }
{
    match cost {
        Some(cost) => Some(route_from(alloc, router, cost)),
        None => None,
    }
}

fn first_at(place: u32, origins: &[Origin]) -> Option<Option<u16>>
    ensures { result ≡ first_cost_at place origins.now }
{
    match origins {
        [] => None,
        [origin, ..] => {
            if origin.router == place {
                Some(origin.cost)
            } else {
                None
            }
        }
    }
}

fn behind(place: u32, origins: &[Origin]) -> &[Origin]
    ensures { result.now ≡ origins_behind place origins.now }
{
    match origins {
        [] => origins,
        [origin, later @ ..] => {
            if origin.router == place {
                later
            } else {
                origins
            }
        }
    }
}

/// The initial routes of the routers, by the origins of a class.
pub fn starts_of(
    alloc: Global,
    routers: &[Router],
    origins: &[Origin],
) -> Result<List<Option<Route>>, NoMemory>
    requires { length routers.now < 2 ^ 32 }
    ensures { IfOk result (λ starts. starts ≡ starts_from 0 origins.now routers.now) }
{
    let mut starts = List::from_vec(Vec::with_capacity(alloc, routers.len())?);
    let mut later = origins;
    for place in 0..routers.len() {
        let cost = first_at(place as u32, later);
        starts.push(start_from(alloc, &routers[place], cost))?;
        later = behind(place as u32, later);
    }
    Ok(starts)
}
