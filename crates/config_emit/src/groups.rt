//! The names of a group's members.

ghost use Rattle.std.specs.Prelude.{◌≡◌, [], IfOk, Contains, map, slice_index_or};
ghost use Rattle.std.specs.List.{range_with_len};
ghost use Rattle.base_kit.specs.Partition.{IsNumbered, members_of};
ghost use Rattle.srp_quotient.specs.Groups.{first_member};

use crate::room::list_with_room;
use base_kit::{List, NoMemory, Text};
use refine_partition::Partition;
use std::alloc::Global;

/// The first member of a group.
pub(crate) fn first_member(groups: &Partition, group: u32) -> u32
    requires { Contains groups.now group }
    ensures { result ≡ first_member groups.now group }
{
    groups.members(group)[0]
}

/// A copy of the name at a place, empty where there is none.
pub(crate) fn name_at(alloc: Global, names: &[Text], place: u32) -> Result<Text, NoMemory>
    ensures { IfOk result (λ name. name ≡ slice_index_or names.now place []) }
{
    match names.get(place as usize) {
        Some(name) => {
            let copy = String::from_str(alloc, name.as_str())?;
            Ok(Text::from_string(copy))
        }
        None => Ok(Text::new(alloc)),
    }
}

fn names_at(alloc: Global, names: &[Text], places: &[u32]) -> Result<List<Text>, NoMemory>
    ensures { IfOk result (λ found. found ≡ map (λ u. slice_index_or names.now u []) places.now) }
{
    let mut found = list_with_room(alloc, places.len())?;
    for place in places {
        found.push(name_at(alloc, names, *place)?)?;
    }
    Ok(found)
}

/// The names of the members of each group.
pub(crate) fn member_names(
    alloc: Global,
    names: &[Text],
    groups: &Partition,
    count: u32,
) -> Result<List<List<Text>>, NoMemory>
    requires { IsNumbered groups.now count }
    ensures { IfOk result (λ found. found ≡ map (λ g. map (λ u. slice_index_or names.now u []) (members_of groups.now g)) (range_with_len 0 count)) }
{
    let mut found = list_with_room(alloc, count as usize)?;
    for group in 0..count {
        found.push(names_at(alloc, names, groups.members(group))?)?;
    }
    Ok(found)
}
