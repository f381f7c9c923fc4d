//! The answers of a router's prefix lists to one prefix.

ghost use Rattle.std.specs.Prelude.{◌≡◌, IfOk, OnOk, nat_eq, option_copied, slice_get};
ghost use Rattle.std.specs.HashMap.{get};
ghost use Rattle.std.specs.List.{list_any};
ghost use Rattle.std.specs.Option.{option_and_then};
ghost use Rattle.cfg_ast.specs.meaning.Policy.{prefix_list_named, prefixes_permitted_by};
ghost use Rattle.specialize.specs.Answers.{AreAnswers, list_answer_at};
ghost use Rattle.specialize.specs.Places.{ArePlacesOfRouter};

use crate::places::Places;
use base_kit::{NoMemory, Prefix, Text};
use cfg_ast::{PrefixList, Router};
use prefix_lists::permits;
use std::collections::HashMap;

/// The answers that were found so far, by the places of the lists.
pub(crate) type KnownAnswers = HashMap<usize, bool>;

// A list of at most so many entries is asked anew: to keep its answer takes as long.
const SHORT_LIST: usize = 64;

fn list_at(lists: &[PrefixList], place: usize) -> Option<&PrefixList>
    ensures { option_copied result ≡ slice_get lists.now place }
{
    lists.get(place)
}

fn place_of_list(router: &Router, places: &Places, name: &Text) -> Option<usize>
    requires { ArePlacesOfRouter router.now places.now }
    ensures { option_and_then (slice_get router.now.prefix_lists) result ≡ prefix_list_named router.now name.now }
{
    places.prefix_lists.place_of(name.as_str())
}

fn is_short(router: &Router, place: usize) -> bool {
    match list_at(router.prefix_lists.as_slice(), place) {
        Some(list) => list.entries.len() <= SHORT_LIST,
        None => true,
    }
}

fn list_answer_at(router: &Router, p: Prefix, place: usize) -> bool
    ensures { result ≡ list_answer_at router.now p place }
{
    match list_at(router.prefix_lists.as_slice(), place) {
        Some(list) => permits(list, p),
        None => false,
    }
}

fn known_answer(known: &KnownAnswers, place: usize) -> Option<bool>
    ensures { result ≡ get nat_eq known.now place }
{
    known.get(&place).copied()
}

// The answer of the list at a place, which is kept if the list is long.
fn answer_at(
    known: &mut KnownAnswers,
    router: &Router,
    p: Prefix,
    place: usize,
) -> Result<bool, NoMemory>
    requires { AreAnswers router.now p known.old }
    ensures answer { IfOk result (λ answer. answer ≡ list_answer_at router.now p place) }
    ensures known { OnOk result (AreAnswers router.now p known.new) }
{
    if is_short(router, place) {
        return Ok(list_answer_at(router, p, place));
    }
    if let Some(answer) = known_answer(known, place) {
        return Ok(answer);
    }
    let answer = list_answer_at(router, p, place);
    known.insert(place, answer)?;
    Ok(answer)
}

fn named_list_permits(
    known: &mut KnownAnswers,
    router: &Router,
    places: &Places,
    p: Prefix,
    name: &Text,
) -> Result<bool, NoMemory>
    requires places { ArePlacesOfRouter router.now places.now }
    requires known { AreAnswers router.now p known.old }
    ensures answer { IfOk result (λ answer. answer ≡ prefixes_permitted_by router.now p name.now) }
    ensures known { OnOk result (AreAnswers router.now p known.new) }
{
    match place_of_list(router, places, name) {
        Some(place) => answer_at(known, router, p, place),
        None => Ok(false),
    }
}

/// Whether a prefix list of one of the names permits the prefix, by the answers that are known. The
/// answers of long lists are kept among these.
pub(crate) fn any_list_permits(
    known: &mut KnownAnswers,
    router: &Router,
    places: &Places,
    p: Prefix,
    names: &[Text],
) -> Result<bool, NoMemory>
    requires places { ArePlacesOfRouter router.now places.now }
    requires known { AreAnswers router.now p known.old }
    ensures answer { IfOk result (λ answer. answer ≡ list_any (prefixes_permitted_by router.now p) names.now) }
    ensures known { OnOk result (AreAnswers router.now p known.new) }
{
    for name in names {
        let permits = named_list_permits(known, router, places, p, name)?;
        if permits {
            return Ok(true);
        }
    }
    Ok(false)
}
