//! Prefixes told apart by what prefix lists answer.

ghost use Rattle.std.specs.Prelude.{◌≡◌, ◌≤◌, [], IfOk, OnOk, map, length};
ghost use Rattle.std.specs.BTreeMap.{IsOrdered};
ghost use Rattle.dest_classes.specs.Lists.{lists_asked};
ghost use Rattle.dest_classes.specs.Cells.{cell_key, started, asked, entries_of, AreAllTold, AreMembers};
ghost use Rattle.dest_classes.specs.Routes.{prefix_cmp};

use crate::lists::lists_asked;
use crate::routes::Originators;
use crate::stretches::{AT_ONCE, first_stretches, word_by_stretch};
use base_kit::{List, NoMemory, Prefix};
use cfg_ast::{Network, Origin, PrefixList};
use indexmap::IndexSet;
use number_hashing::{NumberDigest, NumberHashing};
use std::alloc::Global;

/// A prefix with its originators. Two members are of one cell where the lists that were asked so far
/// answer both alike.
#[derive(Drop)]
pub struct Member {
    pub prefix: Prefix,
    pub origins: List<Origin>,
    pub cell: usize,
}

// A stretch reaches over so many members, of all lengths.
const IN_STRETCH: usize = 1024;

// The first address behind the members of a stretch from that place on, or the last one of all.
fn last_from(members: &[Member], place: usize) -> u32 {
    match members.get(place.saturating_add(IN_STRETCH)) {
        Some(member) => member.prefix.addr(),
        None => u32::MAX,
    }
}

// What the members are told apart by once these lists are asked too.
fn keys_of(
    alloc: Global,
    members: &[Member],
    lists: &[&PrefixList],
) -> Result<Vec<(usize, u64)>, NoMemory>
    requires { length lists.now ≤ AT_ONCE }
    ensures { IfOk result (λ v. v.items ≡ map (cell_key (map (λ list. list.now) lists.now)) members.now) }
{
    let mut keys = Vec::with_capacity(alloc, members.len())?;
    let mut stretches = first_stretches(alloc, lists)?;
    for (place, member) in members.iter().enumerate() {
        let last = last_from(members, place);
        let word = word_by_stretch(alloc, lists, stretches.as_mut_slice(), member.prefix, last)?;
        keys.push((member.cell, word))?;
    }
    Ok(keys)
}

// The hash for a table of these keys.
fn hashing_of(keys: &[(usize, u64)]) -> NumberHashing {
    let mut numbers = NumberDigest::for_count(keys.len());
    for key in keys {
        numbers.add(key);
    }
    numbers.hashing()
}

// The members once these lists are asked too.
fn ask(alloc: Global, members: Vec<Member>, lists: &[&PrefixList]) -> Result<Vec<Member>, NoMemory>
    requires { length lists.now ≤ AT_ONCE }
    ensures { IfOk result (λ v. v.items ≡ asked (map (λ list. list.now) lists.now) [] members.items) }
{
    let keys = keys_of(alloc, members.as_slice(), lists)?;
    let mut different = IndexSet::with_hasher(alloc, hashing_of(keys.as_slice()));
    let mut asked = Vec::with_capacity(alloc, members.len())?;
    for (member, key) in members.into_iter().zip(keys) {
        let (cell, _) = different.insert_full(key)?;
        asked.push(Member { cell, ..member })?;
    }
    Ok(asked)
}

// The members once all these lists are asked.
fn ask_all(
    alloc: Global,
    mut members: Vec<Member>,
    lists: &[&PrefixList],
) -> Result<Vec<Member>, NoMemory>
    requires { AreAllTold [] members.items }
    ensures { IfOk result (λ v. AreMembers (entries_of members.items) (map (λ list. list.now) lists.now) v.items) }
{
    let mut done = 0;
    while done < lists.len() {
        let end = done + AT_ONCE.min(lists.len() - done);
        members = ask(alloc, members, &lists[done..end])?;
        done = end;
    }
    Ok(members)
}

// The prefixes of the map, in its order, before any list is asked.
fn started(alloc: Global, originators: Originators) -> Result<Vec<Member>, NoMemory>
    ensures members { IfOk result (λ v. v.items ≡ map started originators.entries) }
    ensures ordered { OnOk result (IsOrdered prefix_cmp originators) }
{
    let mut members = Vec::with_capacity(alloc, originators.len())?;
    for (prefix, origins) in originators {
        members.push(Member {
            prefix,
            origins,
            cell: 0,
        })?;
    }
    Ok(members)
}

/// The prefixes of the map, in its order, each with its cell by the prefix lists of all routers.
pub fn members_of(
    alloc: Global,
    net: &Network,
    originators: Originators,
) -> Result<Vec<Member>, NoMemory>
    ensures members { IfOk result (λ v. AreMembers originators.entries (lists_asked net.now) v.items) }
    ensures ordered { OnOk result (IsOrdered prefix_cmp originators) }
{
    let lists = lists_asked(alloc, net)?;
    let members = started(alloc, originators)?;
    let told = ask_all(alloc, members, lists.as_slice())?;
    Ok(told)
}
