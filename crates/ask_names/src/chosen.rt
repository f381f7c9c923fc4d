//! The routers that a question names, and the question about them.

ghost use Rattle.std.specs.Prelude.{◌≡◌, ◌≤◌, ◌&&◌, ℕ, Bool, false, not, List, IfOk, filter, length, slice_index_or};
ghost use Rattle.std.specs.List.{range_with_len};
ghost use Rattle.srp_core.specs.Without.{marked_down};
ghost use Rattle.ask_names.specs.Networks.{names_of};
ghost use Rattle.ask_names.specs.Marks.{named_marks, AreMarksFor, marked_routers};
ghost use Rattle.ask_names.specs.Routers.{question_for};

use crate::named::Named;
use ask_words::{AskedOf, Routers};
use base_kit::{List, NoMemory, NumSet, Text};
use cfg_ast::Network;
use numbered_names::NamePlaces;
use srp_questions::Question;
use std::alloc::Global;

// A mark for each router.
fn all_marks(alloc: Global, network: &Network) -> Result<Vec<bool>, NoMemory>
    ensures { IfOk result (λ marks. marks.items ≡ named_marks (names_of network.now) Routers.Every) }
{
    let routers = network.routers.as_slice();
    let mut marks = Vec::new(alloc);
    for _router in routers {
        marks.push(true)?;
    }
    Ok(marks)
}

// For each router, whether its name has a place.
fn placed_marks(alloc: Global, network: &Network, names: &List<Text>) -> Result<Vec<bool>, NoMemory>
    ensures { IfOk result (λ marks. marks.items ≡ named_marks (names_of network.now) (Routers.Named names.now)) }
{
    let places = NamePlaces::of(alloc, names.as_slice())?;
    let routers = network.routers.as_slice();
    let mut marks = Vec::new(alloc);
    for router in routers {
        marks.push(places.place_of(router.name.as_str()).is_some())?;
    }
    Ok(marks)
}

// For each router, whether it is named.
fn named_marks(alloc: Global, network: &Network, of: &Routers) -> Result<Vec<bool>, NoMemory>
    ensures { IfOk result (λ marks. marks.items ≡ named_marks (names_of network.now) of.now) }
{
    match of {
        Routers::Every => all_marks(alloc, network),
        Routers::Named(names) => placed_marks(alloc, network, names),
    }
}

// The routers of which something is asked, where there is no way.
fn marks_of_one(alloc: Global, network: &Network, of: &Routers) -> Result<Named, NoMemory>
    requires { length network.now.routers ≤ 4096 }
    ensures { IfOk result (λ named. named.of.items ≡ named_marks (names_of network.now) of.now) }
{
    let of = named_marks(alloc, network, of)?;
    let way = Vec::new(alloc);
    Ok(Named { of, way })
}

// The routers of which something is asked, and those of the way.
fn marks_of_both(
    alloc: Global,
    network: &Network,
    way: &Routers,
    of: &Routers,
) -> Result<Named, NoMemory>
    requires { length network.now.routers ≤ 4096 }
    ensures of { IfOk result (λ named. named.of.items ≡ named_marks (names_of network.now) of.now) }
    ensures way { IfOk result (λ named. named.way.items ≡ named_marks (names_of network.now) way.now) }
{
    let of = named_marks(alloc, network, of)?;
    let way = named_marks(alloc, network, way)?;
    Ok(Named { of, way })
}

/// The routers that a question names.
pub fn marks_of(alloc: Global, network: &Network, asks: &AskedOf) -> Result<Named, NoMemory>
    requires { length network.now.routers ≤ 4096 }
    ensures { IfOk result (AreMarksFor (names_of network.now) asks.now) }
{
    match asks {
        AskedOf::Route(of) => marks_of_one(alloc, network, of),
        AskedOf::Isolated(of) => marks_of_one(alloc, network, of),
        AskedOf::Hops(_, of) => marks_of_one(alloc, network, of),
        AskedOf::Through(way, of) => marks_of_both(alloc, network, way, of),
        AskedOf::Avoids(way, of) => marks_of_both(alloc, network, way, of),
        AskedOf::Carries(_, of) => marks_of_one(alloc, network, of),
        AskedOf::Lacks(_, of) => marks_of_one(alloc, network, of),
    }
}

// Whether the router is marked, and not down.
fn is_left(marks: &[bool], down: &[bool], place: usize) -> bool
    ensures { result ≡ (slice_index_or marks.now place false && not (slice_index_or down.now place false)) }
{
    marks.get(place).copied().unwrap_or(false) && !down.get(place).copied().unwrap_or(false)
}

// The places of the marked routers, but those that are down.
fn places_left(alloc: Global, marks: &[bool], down: &[bool]) -> Result<Vec<u32>, NoMemory>
    requires { length marks.now ≤ 4096 }
    ensures { IfOk result (λ places. places.items ≡ filter (λ u. slice_index_or marks.now u false && not (slice_index_or down.now u false)) (range_with_len 0 (length marks.now))) }
{
    let count = marks.len() as u32;
    let places = (0..count)
        .filter(|place| is_left(marks, down, *place as usize))
        .collect(alloc)?;
    Ok(places)
}

// The marked routers, but those that are down.
#[tactic(auto, unfolding(crate::specs::Marks::marked_routers))]
fn marked_routers(alloc: Global, marks: &[bool], down: &[bool]) -> Result<NumSet, NoMemory>
    requires { length marks.now ≤ 4096 }
    ensures { IfOk result (λ routers. routers ≡ marked_routers marks.now down.now) }
{
    let places = places_left(alloc, marks, down)?;
    Ok(NumSet::from_ascending(alloc, places))
}

/// The question about the routers that are named, but those that are down.
pub fn question(
    alloc: Global,
    asks: &AskedOf,
    named: &Named,
    down: &[bool],
) -> Result<Question, NoMemory>
    ensures { IfOk result (λ question. (names : List (List ℕ)) (links : List Bool) → AreMarksFor names asks.now named.now → question ≡ question_for names (marked_down down.now links) asks.now) }
{
    let routers = marked_routers(alloc, &named.of, down)?;
    match asks {
        AskedOf::Route(_) => Ok(Question::Route { routers }),
        AskedOf::Isolated(_) => Ok(Question::Isolated { routers }),
        AskedOf::Hops(most, _) => Ok(Question::Hops {
            most: *most,
            routers,
        }),
        AskedOf::Through(_, _) => {
            let way = marked_routers(alloc, &named.way, down)?;
            Ok(Question::Through { way, routers })
        }
        AskedOf::Avoids(_, _) => {
            let way = marked_routers(alloc, &named.way, down)?;
            Ok(Question::Avoids { way, routers })
        }
        AskedOf::Carries(community, _) => Ok(Question::Carries {
            community: *community,
            routers,
        }),
        AskedOf::Lacks(community, _) => Ok(Question::Lacks {
            community: *community,
            routers,
        }),
    }
}
