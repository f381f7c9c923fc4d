//! Too many routers, too many neighbours.

ghost use Rattle.std.specs.Prelude.{◌≡◌, map, flat_map, slice_get};
ghost use Rattle.std.specs.Option.{option_map};
ghost use Rattle.cfg_ast.specs.meaning.Topology.{neighbors_of};
ghost use Rattle.cfg_ast.specs.meaning.RouterFaults.{first_beyond};
ghost use Rattle.cfg_check.specs.Items.{router_line, neighbor_line};
ghost use Rattle.cfg_check.specs.LeastLine.{least_line};

use cfg_ast::{Neighbor, Router};

const MOST_ROUTERS: usize = 4096;

const MOST_NEIGHBORS: usize = 131072;

/// The `hostname` line of the first router past the limit.
pub(crate) fn too_many_routers(routers: &[Router]) -> Option<u32>
    ensures { result ≡ least_line (map router_line (first_beyond 4096 routers.now)) }
{
    if routers.len() <= MOST_ROUTERS {
        return None;
    }
    Some(routers[MOST_ROUTERS].line)
}

/// The neighbours of the router.
pub(crate) fn neighbors(router: &Router) -> &[Neighbor]
    ensures { result.now ≡ neighbors_of router.now }
{
    match &router.bgp {
        Some(process) => process.neighbors.as_slice(),
        None => &[],
    }
}

fn neighbor_at(routers: &[Router], place: usize) -> Option<u32>
    ensures { result ≡ option_map neighbor_line (slice_get (flat_map neighbors_of routers.now) place) }
{
    let mut left = place;
    for router in routers {
        let neighbors = neighbors(router);
        if left < neighbors.len() {
            return Some(neighbors[left].line);
        }
        left -= neighbors.len();
    }
    None
}

/// The `remote-as` line of the first neighbour past the limit.
pub(crate) fn too_many_neighbors(routers: &[Router]) -> Option<u32>
    ensures { result ≡ least_line (map neighbor_line (first_beyond 131072 (flat_map neighbors_of routers.now))) }
{
    neighbor_at(routers, MOST_NEIGHBORS)
}
