//! Numbers for keys, from 1, in the order in which the keys first stand.

ghost use Rattle.std.specs.Prelude.{◌≡◌, ◌<◌, ◌^◌, IfOk, length, map};
ghost use Rattle.cut_certificate.specs.Blocks.{distinct, number_among};
ghost use Rattle.base_kit.specs.Numbering.{IsKeyNamed};

use base_kit::NoMemory;
use std::alloc::Global;
use std::collections::HashMap;

// The number of the key, which is the next one where the key has none yet.
fn number_of(names: &mut HashMap<usize, usize>, key: usize, next: usize) -> Result<usize, NoMemory>
    ensures { IfOk result (λ number. IsKeyNamed names.old names.new key next number) }
{
    if let Some(number) = names.get(&key).copied() {
        return Ok(number);
    }
    names.insert(key, next)?;
    Ok(next)
}

/// The number of each place's key, and how many keys there are.
pub(crate) fn numbers_of(alloc: Global, keys: &[usize]) -> Result<(Vec<usize>, usize), NoMemory>
    requires { length keys.now < 2 ^ 32 }
    ensures numbers { IfOk result (λ r. r.0.items ≡ map (number_among keys.now) keys.now) }
    ensures count { IfOk result (λ r. r.1 ≡ length (distinct keys.now)) }
{
    let mut names = HashMap::new(alloc);
    let mut numbers = Vec::new(alloc);
    let mut count: usize = 0;
    for key in keys {
        let number = number_of(&mut names, *key, count + 1)?;
        numbers.push(number)?;
        count = count.max(number);
    }
    Ok((numbers, count))
}
