//! The problem of a class in BGP.

ghost use Rattle.std.specs.Prelude.{◌≡◌, ◌<◌, Some, IfOk, Contains, length, slice_get};
ghost use Rattle.cfg_ast.specs.meaning.Classes.{classes_of};
ghost use Rattle.cfg_ast.specs.meaning.PolicyFaults.{communities_of};
ghost use Rattle.dd_core.specs.Sets.{Grows};
ghost use Rattle.route_maps.specs.Within.{AreWithin};
ghost use Rattle.srp_build.specs.Built.{IsBuiltFor};
ghost use Rattle.srp_build.specs.Directions.{AreOfSessions};

use crate::bgp_edges::{bgp_edges, written_acts};
use crate::lone::lone_of;
use crate::policy_maps::policy_maps;
use crate::routers::{names_of, numbers_of, starts_of};
use crate::session_hops::SessionHops;
use base_kit::{NoMemory, Prefix, Protocol};
use cfg_ast::DestClass;
use cfg_check::Checked;
use dd_core::Store;
use given_laws::given_is_well_formed;
use specialize::laws::{in_maps_add_nothing, maps_stay_within, session_imports};
use srp_core::Srp;
use std::alloc::Global;

fn first_prefix(class: &DestClass) -> Prefix
    requires { 0 < length class.now.prefixes }
    ensures { slice_get class.now.prefixes 0 ≡ Some result }
{
    class.prefixes.as_slice()[0]
}

/// The problem of a BGP network. Its maps are written out for the first prefix of the class, since they
/// are the same for all.
pub fn bgp_problem(
    alloc: Global,
    net: &Checked,
    directions: &SessionHops,
    class: &DestClass,
    store: &mut Store,
) -> Result<Srp, NoMemory>
    requires directions { AreOfSessions net.now.network directions.now }
    requires class { Contains (classes_of net.now.network) class.now }
    requires known { AreWithin store.old.universe (communities_of net.now.network) }
    ensures grows { Grows store.old store.new }
    ensures built { IfOk result (IsBuiltFor net.now.network class.now) }
{
    given_is_well_formed();
    session_imports();
    in_maps_add_nothing();
    maps_stay_within();
    let routers = net.network().routers.as_slice();
    let places = directions.places.as_slice();
    let p = first_prefix(class);
    let names = names_of(alloc, routers)?;
    let numbers = numbers_of(alloc, routers)?;
    let init = starts_of(alloc, routers, class.origins.as_slice())?;
    let maps = policy_maps(alloc, p, routers, places, &directions.policies.firsts)?;
    let found = bgp_edges(alloc, store, init.as_slice(), directions, &maps)?;
    let edges = found.edges.as_slice();
    let lone = lone_of(alloc, store, &found.acts.acts, routers.len(), edges)?;
    let acts = written_acts(alloc, p, routers, places, &found.acts.acts)?;
    let problem = Srp::new(
        alloc,
        Protocol::Bgp,
        names,
        numbers,
        init,
        lone,
        acts,
        found.edges,
    );
    let _known = problem.count();
    Ok(problem)
}
