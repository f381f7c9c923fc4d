//! Numbers for keys, in the order in which the keys first stand.

ghost use Rattle.std.specs.Prelude.{◌≡◌, ◌<◌, ◌^◌, All, IfOk, IfSome, Some, length, nat_eq};
ghost use Rattle.std.specs.HashMap.{get};
ghost use Rattle.base_kit.specs.Numbering.{IsKeyNamed};
ghost use Rattle.refine_partition.specs.Numbering.{IsKeyNamedAt, IsNumbering};

use base_kit::NoMemory;
use std::alloc::Global;
use std::collections::HashMap;

/// The number of the key, which is the next one where the key has none yet.
fn number_of(names: &mut HashMap<u32, u32>, key: u32, next: u32) -> Result<u32, NoMemory>
    ensures { IfOk result (λ number. IsKeyNamed names.old names.new key next number) }
{
    if let Some(number) = names.get(&key).copied() {
        return Ok(number);
    }
    names.insert(key, next)?;
    Ok(next)
}

/// The number of the key, which needs no look-up where it is the last one that had one.
fn number_after(
    names: &mut HashMap<u32, u32>,
    last: Option<(u32, u32)>,
    key: u32,
    next: u32,
) -> Result<u32, NoMemory>
    requires last { IfSome last (λ l. get nat_eq names.old l.0 ≡ Some l.1) }
    ensures { IfOk result (λ number. IsKeyNamed names.old names.new key next number) }
{
    match last {
        Some((known, number)) if known == key => Ok(number),
        _ => number_of(names, key, next),
    }
}

/// The number of each place's key, and how many keys there are.
pub fn numbers_of(alloc: Global, keys: &[u32]) -> Result<(Vec<u32>, u32), NoMemory>
    requires { length keys.now < 2 ^ 32 }
    ensures total { IfOk result (λ r. length r.0.items ≡ length keys.now) }
    ensures numbering { IfOk result (λ r. IsNumbering keys.now r.0.items r.1) }
{
    let mut names = HashMap::new(alloc);
    let mut numbers = Vec::with_capacity(alloc, keys.len())?;
    let mut count = 0;
    let mut last = None;
    for key in keys {
        let number = number_after(&mut names, last, *key, count)?;
        numbers.push(number)?;
        count = count.max(number + 1);
        last = Some((*key, number));
    }
    Ok((numbers, count))
}

/// The number of the key, which is the next one where the key has none yet.
fn number_in(names: &mut Vec<Option<u32>>, key: u32, next: u32) -> u32
    requires { key < length names.old.items }
    ensures { IsKeyNamedAt names.old.items names.new.items key next result }
{
    if let Some(number) = names[key as usize] {
        return number;
    }
    names[key as usize] = Some(next);
    next
}

/// The number of each place's key, and how many keys there are. The keys are below the number of places,
/// so that a table has their numbers.
pub fn numbers_of_small(alloc: Global, keys: &[u32]) -> Result<(Vec<u32>, u32), NoMemory>
    requires few { length keys.now < 2 ^ 32 }
    requires small { All (λ key. key < length keys.now) keys.now }
    ensures total { IfOk result (λ r. length r.0.items ≡ length keys.now) }
    ensures numbering { IfOk result (λ r. IsNumbering keys.now r.0.items r.1) }
{
    let mut names = vec![in alloc; None; keys.len()]?;
    let mut numbers = Vec::with_capacity(alloc, keys.len())?;
    let mut count = 0;
    for key in keys {
        let number = number_in(&mut names, *key, count);
        numbers.push(number)?;
        count = count.max(number + 1);
    }
    Ok((numbers, count))
}
