//! Names that no router has.

ghost use Rattle.std.specs.Prelude.{◌≡◌, ◌++◌, ◌∷◌, [], flat_map, option_copied};
ghost use Rattle.cfg_ast.specs.declared.network.Router.{Router};
ghost use Rattle.numbered_names.specs.NamePlaces.{ArePlacesOf};
ghost use Rattle.ask_names.specs.Networks.{names_of};
ghost use Rattle.ask_names.specs.Routers.{names_in, names_in_lost, names_in_question, names_in_task, unknown_in, unknown_name};
ghost use Rattle.ask_words.specs.NameLists.{is_among};

use ask_words::{AskedOf, Lost, Request, Routers, Task};
use base_kit::Text;
use cfg_ast::Network;
use numbered_names::NamePlaces;

// Whether a router has the name.
#[tactic(auto, using(ask_names::proofs::Names::placed_among))]
fn is_known(network: &Network, places: &NamePlaces, name: &str) -> bool
    requires { ArePlacesOf (λ (router : Router). router.name) places.now network.now.routers }
    ensures { result ≡ is_among (names_of network.now) name.now }
{
    places.place_of(name).is_some()
}

// The first of these names that no router has.
fn unknown_among<'a>(network: &Network, places: &NamePlaces, names: &'a [Text]) -> Option<&'a Text>
    requires { ArePlacesOf (λ (router : Router). router.name) places.now network.now.routers }
    ensures { option_copied result ≡ unknown_in (names_of network.now) names.now }
{
    for name in names {
        if !is_known(network, places, name.as_str()) {
            return Some(name);
        }
    }
    None
}

fn unknown_of<'a>(network: &Network, places: &NamePlaces, of: &'a Routers) -> Option<&'a Text>
    requires { ArePlacesOf (λ (router : Router). router.name) places.now network.now.routers }
    ensures { option_copied result ≡ unknown_in (names_of network.now) (names_in of.now) }
{
    match of {
        Routers::Every => None,
        Routers::Named(names) => unknown_among(network, places, names.as_slice()),
    }
}

// Those of which something is asked come before those of the way.
#[tactic(auto, using(ask_names::proofs::Names::unknown_first, ask_names::proofs::Names::unknown_second))]
fn unknown_of_both<'a>(
    network: &Network,
    places: &NamePlaces,
    way: &'a Routers,
    of: &'a Routers,
) -> Option<&'a Text>
    requires { ArePlacesOf (λ (router : Router). router.name) places.now network.now.routers }
    ensures { option_copied result ≡ unknown_in (names_of network.now) (names_in of.now ++ names_in way.now) }
{
    match unknown_of(network, places, of) {
        Some(name) => Some(name),
        None => unknown_of(network, places, way),
    }
}

fn unknown_in_question<'a>(
    network: &Network,
    places: &NamePlaces,
    asks: &'a AskedOf,
) -> Option<&'a Text>
    requires { ArePlacesOf (λ (router : Router). router.name) places.now network.now.routers }
    ensures { option_copied result ≡ unknown_in (names_of network.now) (names_in_question asks.now) }
{
    match asks {
        AskedOf::Route(of) => unknown_of(network, places, of),
        AskedOf::Isolated(of) => unknown_of(network, places, of),
        AskedOf::Hops(_, of) => unknown_of(network, places, of),
        AskedOf::Through(way, of) => unknown_of_both(network, places, way, of),
        AskedOf::Avoids(way, of) => unknown_of_both(network, places, way, of),
        AskedOf::Carries(_, of) => unknown_of(network, places, of),
        AskedOf::Lacks(_, of) => unknown_of(network, places, of),
    }
}

fn unknown_in_task<'a>(network: &Network, places: &NamePlaces, task: &'a Task) -> Option<&'a Text>
    requires { ArePlacesOf (λ (router : Router). router.name) places.now network.now.routers }
    ensures { option_copied result ≡ unknown_in (names_of network.now) (names_in_task task.now) }
{
    match task {
        Task::Count => None,
        Task::Solutions => None,
        Task::Forwards => None,
        Task::Answer(asks) => unknown_in_question(network, places, asks),
        Task::FailingLinks(asks) => unknown_in_question(network, places, asks),
        Task::FailingRouters(asks) => unknown_in_question(network, places, asks),
    }
}

fn unknown_if<'a>(network: &Network, places: &NamePlaces, name: &'a Text) -> Option<&'a Text>
    requires { ArePlacesOf (λ (router : Router). router.name) places.now network.now.routers }
    ensures { option_copied result ≡ unknown_in (names_of network.now) (name.now ∷ []) }
{
    if is_known(network, places, name.as_str()) {
        None
    } else {
        Some(name)
    }
}

#[tactic(auto, using(ask_names::proofs::Names::unknown_first, ask_names::proofs::Names::unknown_second))]
fn unknown_in_item<'a>(network: &Network, places: &NamePlaces, item: &'a Lost) -> Option<&'a Text>
    requires { ArePlacesOf (λ (router : Router). router.name) places.now network.now.routers }
    ensures { option_copied result ≡ unknown_in (names_of network.now) (names_in_lost item.now) }
{
    match item {
        Lost::Router(name) => unknown_if(network, places, name),
        Lost::Links(first, second) => match unknown_if(network, places, first) {
            Some(name) => Some(name),
            None => unknown_if(network, places, second),
        },
    }
}

fn unknown_in_down<'a>(
    network: &Network,
    places: &NamePlaces,
    items: &'a [Lost],
) -> Option<&'a Text>
    requires { ArePlacesOf (λ (router : Router). router.name) places.now network.now.routers }
    ensures { option_copied result ≡ unknown_in (names_of network.now) (flat_map names_in_lost items.now) }
{
    for item in items {
        match unknown_in_item(network, places, item) {
            Some(name) => return Some(name),
            None => {}
        }
    }
    None
}

/// The first name in a request that no router has.
#[tactic(auto, using(ask_names::proofs::Names::unknown_first, ask_names::proofs::Names::unknown_second), unfolding(ask_names::specs::Routers::unknown_name))]
pub(crate) fn unknown_name<'a>(
    network: &Network,
    places: &NamePlaces,
    request: &'a Request,
) -> Option<&'a Text>
    requires { ArePlacesOf (λ (router : Router). router.name) places.now network.now.routers }
    ensures { option_copied result ≡ unknown_name (names_of network.now) request.now }
{
    match unknown_in_task(network, places, &request.task) {
        Some(name) => Some(name),
        None => unknown_in_down(network, places, request.down.as_slice()),
    }
}
