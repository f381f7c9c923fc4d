//! The communities that a network names, and the one past the limit.

ghost use Rattle.std.specs.Prelude.{◌≡◌, ◌≤◌, ◌<◌, ◌++◌, IfOk, OnOk, map, flat_map, length, nat_lt, false, if◌then◌else◌};
ghost use Rattle.std.specs.List.{list_any};
ghost use Rattle.base_kit.specs.Sets.{with_number};
ghost use Rattle.cfg_ast.specs.declared.policy.Mention.{Mention};
ghost use Rattle.cfg_ast.specs.meaning.PolicyFaults.{mention_at, mentions_on, mentions_in_list, changed_by, mentions_in, mentions_in_map, mentions_of, communities_in};
ghost use Rattle.cfg_check.specs.Communities.{mentions_up_to, exceeding_mentions, count_before, count_up_to, KeepsUpTo};
ghost use Rattle.cfg_check.specs.LeastLine.{least_line};

use base_kit::{NoMemory, NumSet};
use cfg_ast::{Change, CommunityLine, CommunityList, MapEntry, Mention, RouteMap, Router};
use number_hashing::{NumberDigest, NumberHashing};
use std::alloc::Global;
use std::collections::HashSet;

const MOST_COMMUNITIES: usize = 1024;

fn push_on(found: &mut Vec<Mention>, line: u32, comms: &[u32]) -> Result<(), NoMemory>
    ensures { OnOk result (found.new.items ≡ found.old.items ++ map (mention_at line) comms.now) }
{
    for community in comms {
        found.push(Mention {
            community: *community,
            line,
        })?;
    }
    Ok(())
}

fn push_in_lines(found: &mut Vec<Mention>, lines: &[CommunityLine]) -> Result<(), NoMemory>
    ensures { OnOk result (found.new.items ≡ found.old.items ++ flat_map mentions_on lines.now) }
{
    for line in lines {
        push_on(found, line.line, line.comms.as_slice())?;
    }
    Ok(())
}

fn push_in_lists(found: &mut Vec<Mention>, lists: &[CommunityList]) -> Result<(), NoMemory>
    ensures { OnOk result (found.new.items ≡ found.old.items ++ flat_map mentions_in_list lists.now) }
{
    for list in lists {
        push_in_lines(found, list.lines.as_slice())?;
    }
    Ok(())
}

// The communities that a `set community` line names.
fn changed_by(change: &Option<Change>) -> &[u32]
    ensures { result.now ≡ changed_by change.now }
{
    match change {
        Some(Change::Replace(comms)) => comms.as_slice(),
        Some(Change::Append(comms)) => comms.as_slice(),
        Some(Change::Clear) => &[],
        None => &[],
    }
}

fn push_in_entries(found: &mut Vec<Mention>, entries: &[MapEntry]) -> Result<(), NoMemory>
    ensures { OnOk result (found.new.items ≡ found.old.items ++ flat_map mentions_in entries.now) }
{
    for entry in entries {
        push_on(found, entry.change_line, changed_by(&entry.change))?;
    }
    Ok(())
}

fn push_in_maps(found: &mut Vec<Mention>, maps: &[RouteMap]) -> Result<(), NoMemory>
    ensures { OnOk result (found.new.items ≡ found.old.items ++ flat_map mentions_in_map maps.now) }
{
    for map in maps {
        push_in_entries(found, map.entries.as_slice())?;
    }
    Ok(())
}

fn push_of(found: &mut Vec<Mention>, router: &Router) -> Result<(), NoMemory>
    ensures { OnOk result (found.new.items ≡ found.old.items ++ mentions_of router.now) }
{
    push_in_lists(found, router.community_lists.as_slice())?;
    push_in_maps(found, router.route_maps.as_slice())
}

/// Each community that a line of the routers names, with that line.
pub(crate) fn all_mentions(alloc: Global, routers: &[Router]) -> Result<Vec<Mention>, NoMemory>
    ensures { IfOk result (λ found. found.items ≡ flat_map mentions_of routers.now) }
{
    let mut found = Vec::new(alloc);
    for router in routers {
        push_of(&mut found, router)?;
    }
    Ok(found)
}

fn add_if(set: &mut NumSet, is_new: bool, number: u32) -> Result<(), NoMemory>
    ensures { OnOk result (set.new ≡ (if is_new then with_number number set.old else set.old)) }
{
    if is_new {
        set.add(number)?;
    }
    Ok(())
}

/// The hash for a table of the communities.
pub(crate) fn hashing_of_mentions(mentions: &[Mention]) -> NumberHashing {
    let mut numbers = NumberDigest::for_count(mentions.len());
    for mention in mentions {
        numbers.add_number(u64::from(mention.community));
    }
    numbers.hashing()
}

/// The communities that are mentioned.
pub(crate) fn communities(
    alloc: Global,
    hashing: NumberHashing,
    mentions: &[Mention],
) -> Result<NumSet, NoMemory>
    ensures { IfOk result (λ set. set ≡ communities_in mentions.now) }
{
    let mut seen: HashSet<u32, NumberHashing> = HashSet::with_hasher(alloc, hashing);
    let mut set = NumSet::new(alloc);
    for mention in mentions {
        let is_new = seen.insert(mention.community)?;
        add_if(&mut set, is_new, mention.community)?;
    }
    Ok(set)
}

fn later(line: u32, other: u32) -> u32
    ensures first { line ≤ result }
    ensures second { other ≤ result }
{
    if line < other { other } else { line }
}

// A line after which nothing is mentioned.
fn last_line(mentions: &[Mention]) -> u32
    ensures { list_any (λ (m : Mention). nat_lt result m.line) mentions.now ≡ false }
{
    let mut last = 0;
    for mention in mentions {
        last = later(last, mention.line);
    }
    last
}

// Puts in the community if it stands on a line up to this one.
fn keep_up_to(
    seen: &mut HashSet<u32, NumberHashing>,
    mention: Mention,
    line: u32,
) -> Result<(), NoMemory>
    ensures { OnOk result (KeepsUpTo line mention seen.old seen.new) }
{
    if mention.line <= line {
        seen.insert(mention.community)?;
    }
    Ok(())
}

// Whether more communities than allowed stand on the lines up to this one.
fn exceeds(
    alloc: Global,
    hashing: NumberHashing,
    mentions: &[Mention],
    line: u32,
) -> Result<bool, NoMemory>
    ensures { IfOk result (λ more. more ≡ nat_lt 1024 (count_up_to mentions.now line)) }
{
    let mut seen: HashSet<u32, NumberHashing> = HashSet::with_hasher(alloc, hashing);
    for mention in mentions {
        keep_up_to(&mut seen, *mention, line)?;
        if seen.len() > MOST_COMMUNITIES {
            return Ok(true);
        }
    }
    Ok(false)
}

// The first line up to which more communities stand than are allowed. It is not after `last`.
fn first_exceeding(
    alloc: Global,
    hashing: NumberHashing,
    mentions: &[Mention],
    last: u32,
) -> Result<u32, NoMemory>
    requires { 1024 < count_up_to mentions.now last }
    ensures few { IfOk result (λ line. count_before mentions.now line ≤ 1024) }
    ensures many { IfOk result (λ line. 1024 < count_up_to mentions.now line) }
{
    let mut low = 0;
    let mut high = last;
    while low < high {
        let middle = low + (high - low) / 2;
        if exceeds(alloc, hashing, mentions, middle)? {
            high = middle;
        } else {
            low = middle + 1;
        }
    }
    Ok(high)
}

/// The line at which the first community past the limit stands.
pub(crate) fn too_many_communities(
    alloc: Global,
    hashing: NumberHashing,
    mentions: &[Mention],
) -> Result<Option<u32>, NoMemory>
    ensures { IfOk result (λ line. line ≡ least_line (exceeding_mentions 1024 mentions.now)) }
{
    let last = last_line(mentions);
    if !exceeds(alloc, hashing, mentions, last)? {
        return Ok(None);
    }
    let line = first_exceeding(alloc, hashing, mentions, last)?;
    Ok(Some(line))
}
