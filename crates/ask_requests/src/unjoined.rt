//! Pairs of routers that no link joins.

ghost use Rattle.std.specs.Prelude.{◌≡◌, find, option_copied, IfOk};
ghost use Rattle.std.specs.List.{list_any};
ghost use Rattle.ask_names.specs.Networks.{names_of};
ghost use Rattle.ask_names.specs.Routers.{is_unjoined, joins_names, unjoined};
ghost use Rattle.ask_requests.specs.Joined.{ArePairsOf, is_apart};

use ask_names::{NamePairs, joins_names, name_at};
use ask_words::Lost;
use base_kit::NoMemory;
use cfg_ast::{Link, Network};
use numbered_names::{NameDigest, NameHashing};
use std::alloc::Global;

// Whether a link joins routers of these two names.
fn are_joined(network: &Network, links: &[Link], first: &str, second: &str) -> bool
    ensures { result ≡ list_any (joins_names (names_of network.now) first.now second.now) links.now }
{
    links
        .iter()
        .any(|link| joins_names(network, first, second, link))
}

fn is_unjoined(network: &Network, links: &[Link], item: &Lost) -> bool
    ensures { result ≡ is_unjoined (names_of network.now) links.now item.now }
{
    match item {
        Lost::Router(_) => false,
        Lost::Links(first, second) => !are_joined(network, links, first.as_str(), second.as_str()),
    }
}

// The first pair that no link joins, each pair compared with the links.
#[tactic(auto, unfolding(ask_names::specs::Routers::unjoined))]
fn unjoined_by_links<'a>(network: &Network, links: &[Link], items: &'a [Lost]) -> Option<&'a Lost>
    ensures { option_copied result ≡ unjoined (names_of network.now) links.now items.now }
{
    items.iter().find(|item| is_unjoined(network, links, item))
}

// How the names at the ends of links are hashed.
fn hashing_of(network: &Network, links: &[Link]) -> NameHashing {
    let mut names = NameDigest::new();
    for link in links {
        names.add(name_at(network, link.low).as_bytes());
        names.add(name_at(network, link.high).as_bytes());
    }
    names.hashing()
}

// The pairs of routers that links join.
fn joined_pairs<'a>(
    alloc: Global,
    network: &'a Network,
    links: &[Link],
) -> Result<NamePairs<'a>, NoMemory>
    ensures { IfOk result (λ pairs. ArePairsOf (names_of network.now) links.now pairs) }
{
    let mut pairs = NamePairs::new(alloc, hashing_of(network, links));
    for link in links {
        let low = name_at(network, link.low);
        let high = name_at(network, link.high);
        pairs.insert(low, high)?;
    }
    Ok(pairs)
}

fn is_apart(pairs: &NamePairs, item: &Lost) -> bool
    ensures { result ≡ is_apart pairs.now item.now }
{
    match item {
        Lost::Router(_) => false,
        Lost::Links(first, second) => !pairs.has_either(first.as_str(), second.as_str()),
    }
}

// The first pair that is not in the set.
fn first_apart<'a>(pairs: &NamePairs, items: &'a [Lost]) -> Option<&'a Lost>
    ensures { option_copied result ≡ find (is_apart pairs.now) items.now }
{
    items.iter().find(|item| is_apart(pairs, item))
}

// Up to so many items are compared with the links. For more, the pairs that links join are put into a set.
const FEW: usize = 16;

/// The first pair that no link joins.
///
/// # Errors
/// Out of memory.
pub(crate) fn unjoined<'a>(
    alloc: Global,
    network: &Network,
    links: &[Link],
    items: &'a [Lost],
) -> Result<Option<&'a Lost>, NoMemory>
    ensures { IfOk result (λ pair. option_copied pair ≡ unjoined (names_of network.now) links.now items.now) }
{
    if items.len() <= FEW {
        return Ok(unjoined_by_links(network, links, items));
    }
    let pairs = joined_pairs(alloc, network, links)?;
    Ok(first_apart(&pairs, items))
}
