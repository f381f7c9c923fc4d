//! The routers and links that are down.

ghost use Rattle.std.specs.Prelude.{◌≡◌, ◌||◌, ℕ, List, IfOk, OnOk};
ghost use Rattle.std.specs.List.{list_any};
ghost use Rattle.numbered_names.specs.NameSets.{has_name};
ghost use Rattle.ask_names.specs.LinkLookups.{LooksUp};
ghost use Rattle.ask_names.specs.NamePairs.{has_pair};
ghost use Rattle.ask_names.specs.Networks.{names_of};
ghost use Rattle.ask_names.specs.Routers.{name_at, is_router_lost, names_pair, joins_names, is_link_lost, routers_lost, links_lost};

use crate::pairs::NamePairs;
use ask_words::Lost;
use base_kit::NoMemory;
use cfg_ast::{Link, Network};
use numbered_names::{NameDigest, NameHashing, NameSet};
use std::alloc::Global;

/// The name of a router, empty where there is no such router.
pub fn name_at(network: &Network, router: u32) -> &str
    ensures { result.now ≡ name_at (names_of network.now) router }
{
    match network.routers.as_slice().get(router as usize) {
        Some(router) => router.name.as_str(),
        None => "",
    }
}

/// Whether the link joins routers of these two names.
pub fn joins_names(network: &Network, first: &str, second: &str, link: &Link) -> bool
    ensures { result ≡ joins_names (names_of network.now) first.now second.now link.now }
{
    let low = name_at(network, link.low);
    let high = name_at(network, link.high);
    first == low && second == high || second == low && first == high
}

// How the names of items are hashed.
fn hashing_of(items: &[Lost]) -> NameHashing {
    let mut names = NameDigest::new();
    for item in items {
        match item {
            Lost::Router(name) => names.add(name.as_str().as_bytes()),
            Lost::Links(first, second) => {
                names.add(first.as_str().as_bytes());
                names.add(second.as_str().as_bytes());
            }
        }
    }
    names.hashing()
}

fn put_router<'a>(routers: &mut NameSet<'a>, item: &'a Lost) -> Result<(), NoMemory>
    ensures { OnOk result ((name : List ℕ) → has_name routers.new name ≡ (has_name routers.old name || is_router_lost name item.now)) }
{
    match item {
        Lost::Router(name) => {
            routers.insert(name.as_str())?;
            Ok(())
        }
        Lost::Links(_, _) => Ok(()),
    }
}

fn routers_in<'a>(alloc: Global, items: &'a [Lost]) -> Result<NameSet<'a>, NoMemory>
    ensures { IfOk result (λ routers. (name : List ℕ) → has_name routers name ≡ list_any (is_router_lost name) items.now) }
{
    let mut routers = NameSet::new(alloc, hashing_of(items));
    for item in items {
        put_router(&mut routers, item)?;
    }
    Ok(routers)
}

/// For each router, whether it is down.
#[tactic(auto, unfolding(crate::specs::Routers::routers_lost))]
pub fn routers_lost(alloc: Global, network: &Network, items: &[Lost]) -> Result<Vec<bool>, NoMemory>
    ensures { IfOk result (λ marks. marks.items ≡ routers_lost (names_of network.now) items.now) }
{
    let down = routers_in(alloc, items)?;
    let routers = network.routers.as_slice();
    let mut marks = Vec::with_capacity(alloc, routers.len())?;
    for router in routers {
        marks.push(down.contains(router.name.as_str()))?;
    }
    Ok(marks)
}

fn is_link_lost(network: &Network, link: &Link, item: &Lost) -> bool
    ensures { result ≡ is_link_lost (names_of network.now) link.now item.now }
{
    match item {
        Lost::Router(_) => false,
        Lost::Links(first, second) => {
            joins_names(network, first.as_str(), second.as_str(), link)
        }
    }
}

fn is_among_items(network: &Network, link: &Link, items: &[Lost]) -> bool
    ensures { result ≡ list_any (is_link_lost (names_of network.now) link.now) items.now }
{
    items.iter().any(|item| is_link_lost(network, link, item))
}

fn put_pair<'a>(pairs: &mut NamePairs<'a>, item: &'a Lost) -> Result<(), NoMemory>
    ensures { OnOk result ((first second : List ℕ) → has_pair pairs.new first second ≡ (has_pair pairs.old first second || names_pair first second item.now)) }
{
    match item {
        Lost::Router(_) => Ok(()),
        Lost::Links(first, second) => {
            let one = first.as_str();
            let other = second.as_str();
            pairs.insert(one, other)?;
            Ok(())
        }
    }
}

fn pairs_in<'a>(alloc: Global, items: &'a [Lost]) -> Result<NamePairs<'a>, NoMemory>
    ensures { IfOk result (λ pairs. (first second : List ℕ) → has_pair pairs first second ≡ list_any (names_pair first second) items.now) }
{
    let mut pairs = NamePairs::new(alloc, hashing_of(items));
    for item in items {
        put_pair(&mut pairs, item)?;
    }
    Ok(pairs)
}

fn is_among_pairs(network: &Network, link: &Link, pairs: &NamePairs) -> bool
    ensures { (items : List Lost) → ((first second : List ℕ) → has_pair pairs.now first second ≡ list_any (names_pair first second) items) → result ≡ list_any (is_link_lost (names_of network.now) link.now) items }
{
    let low = name_at(network, link.low);
    let high = name_at(network, link.high);
    pairs.has_either(low, high)
}

// Up to so many items are compared with each link. More are put into a set of pairs.
const FEW: usize = 8;

// How links are looked up among the items.
#[derive(Drop)]
enum LinkLookup<'a> {
    Listed(&'a [Lost]),
    Hashed(NamePairs<'a>),
}

impl<'a> LinkLookup<'a> {
    fn of(alloc: Global, items: &'a [Lost]) -> Result<Self, NoMemory>
        ensures { IfOk result (λ lookup. LooksUp lookup items.now) }
    {
        if items.len() <= FEW {
            return Ok(LinkLookup::Listed(items));
        }
        let pairs = pairs_in(alloc, items)?;
        Ok(LinkLookup::Hashed(pairs))
    }

    // Whether one of the items takes the link down.
    fn has(&self, network: &Network, link: &Link) -> bool
        ensures { (items : List Lost) → LooksUp self.now items → result ≡ list_any (is_link_lost (names_of network.now) link.now) items }
    {
        match self {
            LinkLookup::Listed(items) => is_among_items(network, link, items),
            LinkLookup::Hashed(pairs) => is_among_pairs(network, link, pairs),
        }
    }
}

/// For each link, whether it is down.
#[tactic(auto, unfolding(crate::specs::Routers::links_lost))]
pub fn links_lost(
    alloc: Global,
    network: &Network,
    links: &[Link],
    items: &[Lost],
) -> Result<Vec<bool>, NoMemory>
    ensures { IfOk result (λ marks. marks.items ≡ links_lost (names_of network.now) links.now items.now) }
{
    let lookup = LinkLookup::of(alloc, items)?;
    let mut marks = Vec::with_capacity(alloc, links.len())?;
    for link in links {
        marks.push(lookup.has(network, link))?;
    }
    Ok(marks)
}
