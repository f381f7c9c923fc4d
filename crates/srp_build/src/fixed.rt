//! Maps that say the same for every prefix.

ghost use Rattle.std.specs.Prelude.{◌≡◌, true, is_none};
ghost use Rattle.std.specs.List.{list_all};
ghost use Rattle.cfg_ast.specs.declared.policy.MapEntry.{MapEntry};
ghost use Rattle.specialize.specs.Places.{ArePlacesOfRouter};
ghost use Rattle.srp_build.specs.LinePolicies.{IsSameForEachPrefix, names_no_list};

use crate::lines::{list_named, map_named};
use base_kit::Text;
use cfg_ast::{MapEntry, Neighbor, Router};
use specialize::{Places, route_map_at};

fn match_no_list(entries: &[MapEntry]) -> bool
    ensures { result ≡ list_all (λ (entry : MapEntry). is_none entry.prefixes) entries.now }
{
    entries.iter().all(|entry| !entry.prefixes.is_some())
}

fn names_no_list(router: &Router, places: &Places, name: &Text) -> bool
    requires { ArePlacesOfRouter router.now places.now }
    ensures { result ≡ names_no_list router.now name.now }
{
    match route_map_at(router, places, name) {
        Some(map) => match_no_list(map.entries.as_slice()),
        None => true,
    }
}

/// Whether neither the line nor its map names a prefix list. If so, the map of the line is the same for
/// every prefix. `false` promises nothing: the map is then made for each prefix, which costs time alone.
pub fn is_fixed(router: &Router, places: &Places, inbound: bool, line: &Neighbor) -> bool
    requires { ArePlacesOfRouter router.now places.now }
    ensures { result ≡ true → IsSameForEachPrefix router.now inbound line.now }
{
    if list_named(inbound, line).is_some() {
        return false;
    }
    match map_named(inbound, line) {
        Some(named) => names_no_list(router, places, &named.name),
        None => true,
    }
}
