//! The route maps of a router.

ghost use Rattle.std.specs.Prelude.{◌≡◌, [], IfOk, OnOk};
ghost use Rattle.cfg_ast.specs.text.PolicyLines.{has_map_entry, with_map_entry};

use base_kit::{List, NoMemory, Text};
use cfg_ast::{MapEntry, RouteMap};
use named_lists::{NamedList, NumberedLists, fitted};
use numbered_names::NameHashing;
use std::alloc::Global;
use std::marker::Model;

/// The route maps of a router.
#[derive(Drop)]
pub(crate) struct RouteMaps {
    maps: NumberedLists<MapEntry>,
}

impl Model for RouteMaps {
    ghost use Rattle.std.specs.Prelude.{List, map};
    ghost use Rattle.cfg_ast.specs.declared.policy.RouteMap.{RouteMap};
    ghost use Rattle.cfg_parse.specs.NamedLists.{route_map_of};

    ghost Value = { List RouteMap };

    ghost view = { λ a. map route_map_of a.maps };
}

impl RouteMaps {
    pub(crate) fn new(alloc: Global, hashing: NameHashing) -> Self
        ensures { result ≡ [] }
    {
        RouteMaps {
            maps: NumberedLists::new(alloc, hashing),
        }
    }

    /// Whether the map of this name has an entry of this sequence number.
    pub(crate) fn has_entry(&self, name: &str, seq: u32) -> bool
        ensures { result ≡ has_map_entry self.now name.now seq }
    {
        self.maps.has_entry(name, seq)
    }

    /// Puts an entry into the map of its name, which it may begin.
    pub(crate) fn add(&mut self, alloc: Global, name: Text, entry: MapEntry) -> Result<(), NoMemory>
        ensures { OnOk result (self.new ≡ with_map_entry name entry self.old) }
    {
        self.maps.add(alloc, name, entry)
    }

    /// The maps, the entries of each by sequence number.
    pub(crate) fn into_list(self, alloc: Global) -> Result<List<RouteMap>, NoMemory>
        ensures { IfOk result (λ maps. maps ≡ self) }
    {
        let maps = self.maps.into_list(alloc)?.into_vec();
        let maps = maps
            .into_iter()
            .map(|NamedList { name, entries }| RouteMap { name, entries })
            .collect(alloc)?;
        Ok(fitted(maps))
    }
}
