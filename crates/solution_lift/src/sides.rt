//! Groups, places and numbers on both sides.

ghost use Rattle.std.specs.Prelude.{◌≡◌, ◌≢◌, ℕ, ◌<◌, ◌≤◌, Some, None, IfOk, length, nat_eq, replicate, slice_index};
ghost use Rattle.std.specs.HashMap as map;
ghost use Rattle.std.specs.List.{range_with_len};

use base_kit::NoMemory;
use refine_partition::Partition;
use shared_routes::SharedLabels;
use std::alloc::Global;
use std::collections::HashMap;

/// The group of each router.
pub fn groups_of(alloc: Global, p: &Partition, routers: u32) -> Result<Vec<u32>, NoMemory>
    requires { length p.now ≡ routers }
    ensures { IfOk result (λ groups. groups.items ≡ p.now) }
{
    let mut groups = Vec::new(alloc);
    for router in 0..routers {
        groups.push(p.group_of(router))?;
    }
    Ok(groups)
}

/// The numbers 0 to `count` - 1.
pub fn places(alloc: Global, count: u32) -> Result<Vec<u32>, NoMemory>
    ensures { IfOk result (λ places. places.items ≡ range_with_len 0 count) }
{
    let mut places = Vec::new(alloc);
    for place in 0..count {
        places.push(place)?;
    }
    Ok(places)
}

/// The side of each AS number that is not 0.
pub fn sources_of(
    alloc: Global,
    numbers: &[u32],
    sides: &[u32],
) -> Result<HashMap<u32, u32>, NoMemory>
    requires long { length numbers.now ≤ length sides.now }
    requires distinct { (u v : ℕ) → u < length numbers.now → v < length numbers.now → slice_index numbers.now u ≡ slice_index numbers.now v → slice_index numbers.now u ≢ 0 → u ≡ v }
    ensures { IfOk result (λ sources. (u : ℕ) → u < length numbers.now → slice_index numbers.now u ≢ 0 → map.get nat_eq sources (slice_index numbers.now u) ≡ Some (slice_index sides.now u)) }
{
    let mut sources = HashMap::new(alloc);
    for router in 0..numbers.len() {
        sources.insert(numbers[router], sides[router])?;
    }
    Ok(sources)
}

/// No label for each of so many routers.
pub fn no_labels(alloc: Global, count: u32) -> Result<SharedLabels, NoMemory>
    ensures { IfOk result (λ labels. labels ≡ replicate count None) }
{
    let mut labels = SharedLabels::new(alloc);
    for _router in 0..count {
        labels.push(None)?;
    }
    Ok(labels)
}
