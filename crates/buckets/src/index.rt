//! Items under pairs of numbers.

ghost use Rattle.std.specs.Prelude.{◌≡◌, MatchResult};
ghost use Rattle.buckets.specs.Buckets.{bucket, HasSameItems, PushesAt};

use base_kit::NoMemory;
use number_hashing::NumberHashing;
use std::alloc::Global;
use std::collections::HashMap;

/// The items of each pair.
pub type Index<T> = HashMap<(u32, u32), Vec<T>, NumberHashing>;

/// Puts the item last at that pair.
///
/// # Errors
/// Out of memory: the items of each pair stay.
pub fn push_at<T>(
    alloc: Global,
    index: &mut Index<T>,
    pair: (u32, u32),
    item: T,
) -> Result<(), NoMemory>
where
    T: Drop,
    ensures { MatchResult result (λ _. PushesAt index.old index.new pair item) (λ _. HasSameItems index.old index.new) }
{
    if let Some(items) = index.get_mut(&pair) {
        items.push(item)?;
        return Ok(());
    }
    let mut items = Vec::new(alloc);
    items.push(item)?;
    index.insert(pair, items)?;
    Ok(())
}

/// The items at that pair, in order.
pub fn items_at<T>(index: &Index<T>, pair: (u32, u32)) -> &[T]
    ensures { result.now ≡ bucket index.now pair }
{
    match index.get(&pair) {
        Some(items) => items.as_slice(),
        None => &[],
    }
}
