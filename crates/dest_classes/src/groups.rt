//! Prefixes put together by originators and cell.

ghost use Rattle.std.specs.Prelude.{◌≡◌, [], ◌∷◌, ◌++◌, IfOk, OnOk, map, unwrap_or};
ghost use Rattle.indexmap.specs.IndexMap.{insert_entry, get};
ghost use Rattle.dest_classes.specs.Groups.{same_signature, shown_group, grouped_with_all, class_from};

use crate::cells::Member;
use base_kit::{List, NoMemory, Prefix};
use cfg_ast::{DestClass, Origin};
use indexmap::IndexMap;
use number_hashing::{NumberDigest, NumberHashing};
use std::alloc::Global;

/// What tells classes apart: the originators of a prefix, with their initial routes, and its cell.
#[derive(PartialEq, Eq, Hash, Drop)]
pub struct Signature {
    pub origins: Vec<Origin>,
    pub cell: usize,
}

/// The prefixes of each signature, by the first prefix that has it.
pub type Groups = IndexMap<Signature, List<Prefix>, NumberHashing>;

// Puts a prefix into the group of its signature.
fn add(
    alloc: Global,
    groups: &mut Groups,
    signature: Signature,
    prefix: Prefix,
) -> Result<(), NoMemory>
    ensures { OnOk result (groups.new.entries ≡ insert_entry same_signature groups.old.entries signature (unwrap_or (get same_signature groups.old signature) [] ++ prefix ∷ [])) }
{
    groups
        .entry(signature)?
        .or_insert(List::new(alloc))
        .push(prefix)?;
    Ok(())
}

fn add_member(numbers: &mut NumberDigest, member: &Member) {
    numbers.add_number(member.cell as u64);
    numbers.add_number(member.origins.len() as u64);
    for origin in member.origins.as_slice() {
        let cost = match origin.cost {
            Some(cost) => u32::from(cost) + 1,
            None => 0,
        };
        numbers.add_pair(origin.router, cost);
    }
}

// The hash for a table of what the members are told apart by.
fn hashing_of(members: &[Member]) -> NumberHashing {
    let mut numbers = NumberDigest::for_count(members.len());
    for member in members {
        add_member(&mut numbers, member);
    }
    numbers.hashing()
}

/// The members, in their order, in their groups.
pub fn groups_of(alloc: Global, members: Vec<Member>) -> Result<Groups, NoMemory>
    ensures { IfOk result (λ groups. map shown_group groups.entries ≡ grouped_with_all members.items []) }
{
    let hashing = hashing_of(members.as_slice());
    let mut groups = IndexMap::with_hasher(alloc, hashing);
    for member in members {
        let Member {
            prefix,
            origins,
            cell,
        } = member;
        let signature = Signature {
            origins: origins.into_vec(),
            cell,
        };
        add(alloc, &mut groups, signature, prefix)?;
    }
    Ok(groups)
}

/// The class of each group.
pub fn classes_of(alloc: Global, groups: Groups) -> Result<List<DestClass>, NoMemory>
    ensures { IfOk result (λ classes. classes ≡ map class_from (map shown_group groups.entries)) }
{
    let mut classes = List::new(alloc);
    for (signature, prefixes) in groups {
        classes.push(DestClass {
            prefixes,
            origins: List::from_vec(signature.origins),
        })?;
    }
    Ok(classes)
}
