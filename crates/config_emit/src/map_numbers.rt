//! Maps that say different things, by numbers.

ghost use Rattle.std.specs.Prelude.{◌≡◌, map, IfOk, OnOk};
ghost use Rattle.config_emit.specs.MapNumbers.{AreNumbers, with_map, place_of_map};

use crate::map_keys::{EntryKey, map_key};
use base_kit::NoMemory;
use number_hashing::NumberHashing;
use route_maps::Plain;
use std::alloc::Global;
use std::collections::HashMap;

/// Maps that all say different things, each numbered by its place.
#[derive(Drop)]
pub(crate) struct MapNumbers<'a> {
    pub(crate) maps: Vec<&'a Plain>,
    pub(crate) numbers: HashMap<Vec<EntryKey>, usize, NumberHashing>,
}

/// The number of a map, which is put last unless one that says the same is there.
pub(crate) fn number_map<'a>(
    alloc: Global,
    known: &mut MapNumbers<'a>,
    plain: &'a Plain,
) -> Result<usize, NoMemory>
    requires { AreNumbers known.old.numbers (map (λ m. m.now) known.old.maps.items) }
    ensures known { OnOk result (AreNumbers known.new.numbers (map (λ m. m.now) known.new.maps.items)) }
    ensures maps { OnOk result (map (λ m. m.now) known.new.maps.items ≡ with_map plain.now (map (λ m. m.now) known.old.maps.items)) }
    ensures number { IfOk result (λ n. n ≡ place_of_map (map (λ m. m.now) known.new.maps.items) plain.now) }
{
    let key = map_key(alloc, plain)?;
    if let Some(number) = known.numbers.get(&key) {
        return Ok(*number);
    }
    let number = known.maps.len();
    known.maps.push(plain)?;
    known.numbers.insert(key, number)?;
    Ok(number)
}
