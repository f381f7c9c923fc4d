//! The names of a list.

ghost use Rattle.std.specs.Prelude.{◌≡◌, [], ℕ, List, IfOk, Some, None, if◌then◌else◌, map};
ghost use Rattle.numbered_names.specs.NamePlaces.{ArePlacesOf};
ghost use Rattle.ask_words.specs.NameLists.{is_among, name_of, names_from, names_of, routers_of, with_new};

use crate::parts::parts;
use crate::request::Routers;
use base_kit::{List, NoMemory, Text};
use cfg_words::{copy_of, is_router_name};
use numbered_names::{NameHashing, NamePlaces};
use std::alloc::Global;

/// The name of a router, if the word may be one.
#[tactic(auto, using(crate::proofs::Ascii::router_name_is_ascii))]
pub(crate) fn name_in(alloc: Global, word: &[u8]) -> Result<Option<Text>, NoMemory>
    ensures { IfOk result (λ name. name ≡ name_of word.now) }
{
    if !is_router_name(word) {
        return Ok(None);
    }
    let name = copy_of(alloc, word)?;
    Ok(Some(name))
}

/// Whether the name is one of those that have these places.
#[tactic(auto, using(crate::proofs::Lists::found_among))]
pub(crate) fn is_placed(places: &NamePlaces, name: &str) -> bool
    ensures { (names : List (List ℕ)) → ArePlacesOf (λ text. text) places.now names → result ≡ is_among names name.now }
{
    places.place_of(name).is_some()
}

// Puts a name behind the others, whose places these are. False where it is one of them.
fn put_new(
    alloc: Global,
    names: &mut List<Text>,
    places: &mut NamePlaces,
    name: Text,
) -> Result<bool, NoMemory>
    requires { ArePlacesOf (λ text. text) places.old names.old }
    ensures places { IfOk result (λ _. ArePlacesOf (λ text. text) places.new names.new) }
    ensures names { IfOk result (λ is_new. with_new names.old name ≡ (if is_new then Some names.new else None)) }
{
    if is_placed(places, name.as_str()) {
        return Ok(false);
    }
    places.note(alloc, names.as_slice(), &name)?;
    names.push(name)?;
    Ok(true)
}

// The names so far, with each of these parts as one more name, none of them twice.
fn names_among(alloc: Global, parts: &[&[u8]]) -> Result<Option<List<Text>>, NoMemory>
    ensures { IfOk result (λ names. names ≡ names_from (Some []) (map (λ part. part.now) parts.now)) }
{
    let mut names = List::new(alloc);
    let mut places = NamePlaces::new(alloc, NameHashing::of_words(parts));
    for part in parts {
        let Some(name) = name_in(alloc, part)? else {
            return Ok(None);
        };
        if !put_new(alloc, &mut names, &mut places, name)? {
            return Ok(None);
        }
    }
    Ok(Some(names))
}

// Names with commas between them, none of them twice.
#[tactic(auto, unfolding(crate::specs::NameLists::names_of))]
fn names_in(alloc: Global, word: &[u8]) -> Result<Option<List<Text>>, NoMemory>
    ensures { IfOk result (λ names. names ≡ names_of word.now) }
{
    let parts = parts(alloc, word)?;
    names_among(alloc, &parts)
}

/// Names with commas between them, or `*` for all routers.
#[tactic(auto, unfolding(crate::specs::NameLists::routers_of))]
pub(crate) fn routers_in(alloc: Global, word: &[u8]) -> Result<Option<Routers>, NoMemory>
    ensures { IfOk result (λ routers. routers ≡ routers_of word.now) }
{
    if word == b"*".as_slice() {
        return Ok(Some(Routers::Every));
    }
    match names_in(alloc, word)? {
        Some(names) => Ok(Some(Routers::Named(names))),
        None => Ok(None),
    }
}
