//! The members of blocks, in the order of the blocks' least members.

ghost use Rattle.std.specs.Prelude.{◌≡◌, ◌<◌, ◌≤◌, ◌^◌, [], All, IfOk, length};
ghost use Rattle.cut_certificate.specs.Blocks.{groups_of};
ghost use Rattle.cut_certificate.specs.Members.{AreGroupsAmong};

use crate::numbering::numbers_of;
use base_kit::{List, NoMemory};
use std::alloc::Global;

fn empty_groups(alloc: Global, count: usize) -> Result<Vec<List<u32>>, NoMemory>
    ensures total { IfOk result (λ v. length v.items ≡ count) }
    ensures empty { IfOk result (λ v. All (λ l. l ≡ []) v.items) }
{
    let mut groups = Vec::new(alloc);
    for _group in 0..count {
        groups.push(List::new(alloc))?;
    }
    Ok(groups)
}

// The members of blocks that are numbered from 1.
fn members(alloc: Global, numbers: &[usize], count: usize) -> Result<Vec<List<u32>>, NoMemory>
    requires fits { length numbers.now < 2 ^ 32 }
    requires known { All (λ number. (0 < number) × (number ≤ count)) numbers.now }
    ensures total { IfOk result (λ v. length v.items ≡ count) }
    ensures members { IfOk result (λ v. AreGroupsAmong (length numbers.now) numbers.now v.items) }
{
    let mut groups = empty_groups(alloc, count)?;
    for router in 0..numbers.len() {
        groups[numbers[router] - 1].push(router as u32)?;
    }
    Ok(groups)
}

/// The members of the blocks, each ascending, in the order of their least ones.
pub(crate) fn groups_of(alloc: Global, numbers: &[usize]) -> Result<List<List<u32>>, NoMemory>
    requires { length numbers.now < 2 ^ 32 }
    ensures { IfOk result (λ groups. groups ≡ groups_of numbers.now) }
{
    let (places, count) = numbers_of(alloc, numbers)?;
    let groups = members(alloc, &places, count)?;
    Ok(List::from_vec(groups))
}
