//! The AS numbers of the groups.

ghost use Rattle.std.specs.Prelude.{◌≡◌, ◌<◌, map, slice_index, IfOk};
ghost use Rattle.std.specs.List.{range_with_len};
ghost use Rattle.srp_quotient.specs.Groups.{is_used, number_of_group};
ghost use Rattle.config_emit.specs.BgpSteps.{first_among};
ghost use Rattle.config_emit.specs.Sources.{plan_of, IsSource, HasLinks};

use crate::groups::first_member;
use crate::links_by_group::{LinksByGroup, links_of};
use crate::source::{Source, originates};
use base_kit::NoMemory;
use std::alloc::Global;

/// The number at a place, 0 where there is none.
pub(crate) fn number_at(numbers: &[u32], place: u32) -> u32
    ensures { result ≡ slice_index numbers.now place }
{
    match numbers.get(place as usize) {
        Some(number) => *number,
        None => 0,
    }
}

fn first_among(numbers: &[u32], places: &[u32]) -> u32
    ensures { result ≡ first_among numbers.now places.now }
{
    for place in places {
        let number = number_at(numbers, *place);
        if number != 0 {
            return number;
        }
    }
    0
}

// Whether a group originates the class or has a link.
fn is_used(source: &Source, index: &LinksByGroup, group: u32) -> bool
    requires source { IsSource source.now }
    requires links { HasLinks (plan_of source.now) index.now }
    requires inside { group < source.now.count }
    ensures { result ≡ is_used source.now.srp.now source.now.groups.now source.now.links.now group }
{
    let first = first_member(source.groups, group);
    let links = links_of(index, group);
    originates(source, first) || !links.is_empty()
}

// The AS number of a group: that of its first member that has one.
fn number_of_group(source: &Source, index: &LinksByGroup, group: u32) -> u32
    requires source { IsSource source.now }
    requires links { HasLinks (plan_of source.now) index.now }
    requires inside { group < source.now.count }
    ensures { result ≡ number_of_group source.now.srp.now source.now.groups.now source.now.links.now group }
{
    if is_used(source, index, group) {
        first_among(source.srp.numbers(), source.groups.members(group))
    } else {
        0
    }
}

/// The AS numbers of the groups.
pub(crate) fn numbers_of_groups(
    alloc: Global,
    source: &Source,
    index: &LinksByGroup,
) -> Result<Vec<u32>, NoMemory>
    requires source { IsSource source.now }
    requires links { HasLinks (plan_of source.now) index.now }
    ensures { IfOk result (λ numbers. numbers.items ≡ map (number_of_group source.now.srp.now source.now.groups.now source.now.links.now) (range_with_len 0 source.now.count)) }
{
    let mut numbers = Vec::with_capacity(alloc, source.count as usize)?;
    for group in 0..source.count {
        numbers.push(number_of_group(source, index, group))?;
    }
    Ok(numbers)
}
