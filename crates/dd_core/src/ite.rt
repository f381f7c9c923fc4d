//! The operation if-then-else on diagrams (Bryant, 1986).

ghost use Rattle.std.specs.Prelude.{◌≡◌, ◌<◌, Ok, Some, length, IfOk, ℕ};
ghost use Rattle.dd_cache.specs.Memory.{memory, found, recalled};
ghost use Rattle.dd_core.specs.Remembering.{IsMemory};
ghost use Rattle.dd_core.specs.Store.{IsStore, Extends, IsIte, IsWithin};

use crate::build::{choice, first_variable, sons};
use crate::table::{Node, Table};
use base_kit::NoMemory;
use dd_cache::{Cache, OpKey};

/// The result of the operation, from the memory, or worked out and put there.
#[cycle(remembering)]
pub fn remembered_ite(table: &mut Table, cache: &mut Cache, key: OpKey) -> Result<usize, NoMemory>
    requires store { IsStore table.old }
    requires memory { IsMemory table.old cache.old.entries }
    requires a_inside { key.a < length table.old }
    requires b_inside { key.b < length table.old }
    requires c_inside { key.c < length table.old }
    ensures store { IsStore table.new }
    ensures extends { Extends table.old table.new }
    ensures within { (bound : ℕ) → IsWithin table.old bound → IsWithin table.new bound }
    ensures memory { IsMemory table.new cache.new.entries }
    ensures capacity { cache.new.capacity ≡ cache.old.capacity }
    ensures ite { IfOk result (IsIte table.old table.new key.a key.b key.c) }
    ensures kept { IfOk result (λ place. found key cache.new.entries ≡ Some place) }
    ensures hit_result { (place : ℕ) → found key cache.old.entries ≡ Some place → result ≡ Ok place }
    ensures hit_table { (place : ℕ) → found key cache.old.entries ≡ Some place → table.new ≡ table.old }
    ensures hit_cache { (place : ℕ) → found key cache.old.entries ≡ Some place → cache.new ≡ memory cache.old.capacity (recalled key cache.old.entries) }
{
    if let Some(place) = cache.recall(key) {
        return Ok(place);
    }
    let place = ite(table, cache, key)?;
    cache.keep(key, place)?;
    Ok(place)
}

/// The result of the operation, worked out by the first variable of its three nodes.
#[cycle(remembering)]
fn ite(table: &mut Table, cache: &mut Cache, key: OpKey) -> Result<usize, NoMemory>
    requires store { IsStore table.old }
    requires memory { IsMemory table.old cache.old.entries }
    requires a_inside { key.a < length table.old }
    requires b_inside { key.b < length table.old }
    requires c_inside { key.c < length table.old }
    ensures store { IsStore table.new }
    ensures extends { Extends table.old table.new }
    ensures within { (bound : ℕ) → IsWithin table.old bound → IsWithin table.new bound }
    ensures memory { IsMemory table.new cache.new.entries }
    ensures capacity { cache.new.capacity ≡ cache.old.capacity }
    ensures ite { IfOk result (IsIte table.old table.new key.a key.b key.c) }
{
    let OpKey { a, b, c } = key;
    match table.node(a) {
        Node::Constant(true) => Ok(b),
        Node::Constant(false) => Ok(c),
        Node::Choice { variable, .. } => {
            let first = first_variable(table, first_variable(table, variable, b), c);
            let (a_high, a_low) = sons(table, first, a);
            let (b_high, b_low) = sons(table, first, b);
            let (c_high, c_low) = sons(table, first, c);
            let highs = OpKey {
                a: a_high,
                b: b_high,
                c: c_high,
            };
            let lows = OpKey {
                a: a_low,
                b: b_low,
                c: c_low,
            };
            let high = remembered_ite(table, cache, highs)?;
            let low = remembered_ite(table, cache, lows)?;
            let place = choice(table, first, high, low)?;
            Ok(place)
        }
    }
}
