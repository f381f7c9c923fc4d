//! The directions of sessions, with the policies of their lines.

ghost use Rattle.std.specs.Prelude.{All, IfOk};
ghost use Rattle.srp_build.specs.LinePolicies.{AreLinePolicies, AreImportsOf, JoinsLines};
ghost use Rattle.srp_build.specs.Directions.{AreSessionHops};
ghost use Rattle.srp_build.specs.ListPlaces.{HavePlaces};

use crate::hops::Hop;
use crate::imports::{ImportByPolicies, import_by_policies};
use crate::policies::{LinePolicies, policies_of};
use base_kit::NoMemory;
use cfg_ast::Router;
use specialize::{Places, places_of};
use std::alloc::Global;

/// The directions of sessions, and what is known of their maps without a class.
#[derive(Drop)]
pub struct SessionHops {
    pub hops: Vec<Hop>,
    /// The places of each router's lists and maps.
    pub places: Vec<Places>,
    pub policies: LinePolicies,
    /// What each direction imports, by the numbers of the policies of its lines.
    pub imports: Vec<ImportByPolicies>,
}

fn places_by_router(alloc: Global, routers: &[Router]) -> Result<Vec<Places>, NoMemory>
    ensures { IfOk result (λ places. HavePlaces routers.now places.items) }
{
    let mut places = Vec::new(alloc);
    for router in routers {
        places.push(places_of(alloc, router)?)?;
    }
    Ok(places)
}

fn imports_of(
    alloc: Global,
    routers: &[Router],
    policies: &LinePolicies,
    hops: &[Hop],
) -> Result<Vec<ImportByPolicies>, NoMemory>
    requires policies { AreLinePolicies routers.now policies.now }
    requires lines { All (JoinsLines routers.now) hops.now }
    ensures { IfOk result (λ imports. AreImportsOf routers.now policies.now hops.now imports.items) }
{
    let outs = policies.outs.as_slice();
    let ins = policies.ins.as_slice();
    let mut imports = Vec::new(alloc);
    for hop in hops {
        let Some(import) = import_by_policies(routers, outs, ins, hop) else {
            unreachable!();
        };
        imports.push(import)?;
    }
    Ok(imports)
}

/// These directions of sessions, with the policies of the lines at their ends.
pub fn session_hops(
    alloc: Global,
    routers: &[Router],
    hops: Vec<Hop>,
) -> Result<SessionHops, NoMemory>
    requires { All (JoinsLines routers.now) hops.items }
    ensures { IfOk result (AreSessionHops routers.now hops.items) }
{
    let places = places_by_router(alloc, routers)?;
    let policies = policies_of(alloc, routers, places.as_slice())?;
    let imports = imports_of(alloc, routers, &policies, &hops)?;
    Ok(SessionHops {
        hops,
        places,
        policies,
        imports,
    })
}
