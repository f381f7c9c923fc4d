//! A router's lists and maps, found by their names.

ghost use Rattle.std.specs.Prelude.{◌≡◌, IfOk, option_copied};
ghost use Rattle.cfg_ast.specs.meaning.Policy.{prefix_list_named, community_list_named, route_map_named};
ghost use Rattle.specialize.specs.Places.{ArePlacesOfRouter};

use base_kit::{NoMemory, Text};
use cfg_ast::{CommunityList, PrefixList, RouteMap, Router};
use numbered_names::NamePlaces;
use std::alloc::Global;

/// The places of a router's prefix lists, community lists and route maps, by their names.
#[derive(Drop)]
pub struct Places {
    pub(crate) prefix_lists: NamePlaces,
    pub(crate) community_lists: NamePlaces,
    pub(crate) route_maps: NamePlaces,
}

/// The places of the router's lists and maps. If several have one name, it has the place of the first.
pub fn places_of(alloc: Global, router: &Router) -> Result<Places, NoMemory>
    ensures { IfOk result (ArePlacesOfRouter router.now) }
{
    let prefix_lists = NamePlaces::of(alloc, router.prefix_lists.as_slice())?;
    let community_lists = NamePlaces::of(alloc, router.community_lists.as_slice())?;
    let route_maps = NamePlaces::of(alloc, router.route_maps.as_slice())?;
    Ok(Places {
        prefix_lists,
        community_lists,
        route_maps,
    })
}

pub(crate) fn find_prefix_list<'a>(
    router: &'a Router,
    places: &Places,
    name: &Text,
) -> Option<&'a PrefixList>
    requires { ArePlacesOfRouter router.now places.now }
    ensures { option_copied result ≡ prefix_list_named router.now name.now }
{
    let lists = router.prefix_lists.as_slice();
    places.prefix_lists.item_named(lists, name.as_str())
}

pub(crate) fn find_community_list<'a>(
    router: &'a Router,
    places: &Places,
    name: &Text,
) -> Option<&'a CommunityList>
    requires { ArePlacesOfRouter router.now places.now }
    ensures { option_copied result ≡ community_list_named router.now name.now }
{
    let lists = router.community_lists.as_slice();
    places.community_lists.item_named(lists, name.as_str())
}

/// The route map that the router has under a name, by the places of its lists and maps.
pub fn route_map_at<'a>(router: &'a Router, places: &Places, name: &Text) -> Option<&'a RouteMap>
    requires { ArePlacesOfRouter router.now places.now }
    ensures { option_copied result ≡ route_map_named router.now name.now }
{
    let maps = router.route_maps.as_slice();
    places.route_maps.item_named(maps, name.as_str())
}
