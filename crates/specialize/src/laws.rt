//! What holds of the maps that `policy` gives. Each law is the contract of a function that does nothing:
//! whoever needs one calls it.
ghost use Rattle.std.specs.Prelude.{◌≡◌, ℕ, Bool, [], List, Option, Contains};
ghost use Rattle.base_kit.specs.Prefixes.{Prefix};
ghost use Rattle.cfg_ast.specs.meaning.Topology.{neighbors_of};
ghost use Rattle.cfg_ast.specs.printing.WellFormed.{IsWellFormed, IsWellFormedRouter};
ghost use Rattle.cfg_ast.specs.declared.bgp.Neighbor.{Neighbor};
ghost use Rattle.cfg_ast.specs.declared.network.Network.{Network};
ghost use Rattle.cfg_ast.specs.declared.network.Router.{Router};
ghost use Rattle.cfg_ast.specs.meaning.PolicyFaults.{undefined_list_lines, delete_list_lines, prepend_in_lines, communities_of};
ghost use Rattle.route_maps.specs.Within.{IsMapWithin};
ghost use Rattle.specialize.specs.OnePrefix.{plain_of};
ghost use Rattle.specialize.specs.Printable.{HasPrintableMaps};
ghost use Rattle.specialize.specs.Sessions.{in_map, AddsNothing, ImportAsSession};

/// The plain maps of both ends of a session import every set of communities as the session does.
pub fn session_imports()
    ensures { (p : Prefix) (exporter importer : Router) (out into : Neighbor) → IsWellFormedRouter exporter → IsWellFormedRouter importer → ImportAsSession p exporter out importer into }
{}

/// The in maps of a network in which no in map has `set as-path prepend` put no numbers before a path.
pub fn in_maps_add_nothing()
    ensures { (network : Network) (router : Router) (line : Neighbor) → prepend_in_lines network ≡ [] → Contains network.routers router → Contains (neighbors_of router) line → (p : Prefix) → AddsNothing (in_map p router line) }
{}

/// The routers of a network in which no list is undefined, and no deletion list has several communities
/// on a line, have printable maps.
pub fn printable_maps()
    ensures { (network : Network) (router : Router) → IsWellFormed network → undefined_list_lines network ≡ [] → delete_list_lines network ≡ [] → Contains network.routers router → HasPrintableMaps router }
{}

/// The plain maps of a network's routers name only communities that the network names.
pub fn maps_stay_within()
    ensures { (network : Network) (router : Router) → Contains network.routers router → (map list : Option (List ℕ)) (p : Prefix) (inbound : Bool) → IsMapWithin (communities_of network) (plain_of router map list p inbound) }
{}
