//! What is down.

ghost use Rattle.std.specs.Prelude.{◌≡◌, ◌++◌, ◌∷◌, [], ◌||◌, ℕ, List, IfOk, Some, None, if◌then◌else◌, map};
ghost use Rattle.numbered_names.specs.NamePlaces.{ArePlacesOf};
ghost use Rattle.ask_words.specs.NameLists.{is_among, down_from, down_of, lost_of, with_lost, links_between, name_of, word_of_lost, turned_word_of};

use crate::names::{is_placed, name_in};
use crate::parts::parts;
use crate::request::Lost;
use base_kit::{List, NoMemory, Text};
use cfg_words::marks::{behind, has, place_of};
use numbered_names::{NameHashing, NamePlaces};
use std::alloc::Global;

// All links between two different routers.
fn links_between(alloc: Global, first: &[u8], second: &[u8]) -> Result<Option<Lost>, NoMemory>
    ensures { IfOk result (λ item. item ≡ links_between (name_of first.now) (name_of second.now)) }
{
    let Some(one) = name_in(alloc, first)? else {
        return Ok(None);
    };
    let Some(other) = name_in(alloc, second)? else {
        return Ok(None);
    };
    if first == second {
        return Ok(None);
    }
    Ok(Some(Lost::Links(one, other)))
}

// A router, or a pair of routers.
fn lost(alloc: Global, part: &[u8]) -> Result<Option<Lost>, NoMemory>
    ensures { IfOk result (λ item. item ≡ lost_of part.now) }
{
    if has(part, b':') {
        let colon = place_of(part, b':');
        return links_between(alloc, &part[..colon], behind(part, colon));
    }
    match name_in(alloc, part)? {
        Some(name) => Ok(Some(Lost::Router(name))),
        None => Ok(None),
    }
}

// Two names with a colon between them.
fn joined(alloc: Global, first: &Text, second: &Text) -> Result<Text, NoMemory>
    ensures { IfOk result (λ word. word ≡ first.now ++ (58 ∷ second.now)) }
{
    let first = first.as_str();
    let second = second.as_str();
    let word = format!(in alloc; "{first}:{second}")?;
    Ok(Text::from_string(word))
}

impl Lost {
    /// The item as its word.
    ///
    /// # Errors
    /// Out of memory.
    pub fn word(&self, alloc: Global) -> Result<Text, NoMemory>
        ensures { IfOk result (λ word. word ≡ word_of_lost self.now) }
    {
        match self {
            Lost::Router(name) => Text::copy_of(alloc, name.as_str()),
            Lost::Links(first, second) => joined(alloc, first, second),
        }
    }
}

// An item as its word in the other order.
fn turned_word_of(alloc: Global, item: &Lost) -> Result<Text, NoMemory>
    ensures { IfOk result (λ word. word ≡ turned_word_of item.now) }
{
    match item {
        Lost::Router(name) => Text::copy_of(alloc, name.as_str()),
        Lost::Links(first, second) => joined(alloc, second, first),
    }
}

// Whether an item, by its word in one order and in the other, is one of those whose words have these
// places.
fn is_repeated(places: &NamePlaces, word: &str, turned: &str) -> bool
    ensures { (words : List (List ℕ)) → ArePlacesOf (λ text. text) places.now words → result ≡ (is_among words word.now || is_among words turned.now) }
{
    is_placed(places, word) || is_placed(places, turned)
}

// Puts an item behind the others, whose words have these places. False where the item, in one order or
// the other, is one of them.
#[tactic(auto, using(crate::proofs::Lists::one_more_word))]
fn put_new(
    alloc: Global,
    items: &mut List<Lost>,
    words: &mut List<Text>,
    places: &mut NamePlaces,
    item: Lost,
) -> Result<bool, NoMemory>
    requires words { words.old ≡ map word_of_lost items.old }
    requires places { ArePlacesOf (λ text. text) places.old words.old }
    ensures words { IfOk result (λ _. words.new ≡ map word_of_lost items.new) }
    ensures places { IfOk result (λ _. ArePlacesOf (λ text. text) places.new words.new) }
    ensures items { IfOk result (λ is_new. with_lost items.old (Some item) ≡ (if is_new then Some items.new else None)) }
{
    let word = item.word(alloc)?;
    let turned = turned_word_of(alloc, &item)?;
    if is_repeated(places, word.as_str(), turned.as_str()) {
        return Ok(false);
    }
    places.note(alloc, words.as_slice(), &word)?;
    words.push(word)?;
    items.push(item)?;
    Ok(true)
}

// What the parts say is down, none of it twice.
fn down_among(alloc: Global, parts: &[&[u8]]) -> Result<Option<List<Lost>>, NoMemory>
    ensures { IfOk result (λ items. items ≡ down_from (Some []) (map (λ part. part.now) parts.now)) }
{
    let mut items = List::new(alloc);
    let mut words = List::new(alloc);
    let mut places = NamePlaces::new(alloc, NameHashing::of_words(parts));
    for part in parts {
        let Some(item) = lost(alloc, part)? else {
            return Ok(None);
        };
        if !put_new(alloc, &mut items, &mut words, &mut places, item)? {
            return Ok(None);
        }
    }
    Ok(Some(items))
}

/// Routers and pairs of routers with commas between them, none of them twice.
#[tactic(auto, unfolding(crate::specs::NameLists::down_of))]
pub(crate) fn down_in(alloc: Global, word: &[u8]) -> Result<Option<List<Lost>>, NoMemory>
    ensures { IfOk result (λ items. items ≡ down_of word.now) }
{
    let parts = parts(alloc, word)?;
    down_among(alloc, &parts)
}
