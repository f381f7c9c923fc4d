//! Plain maps by numbers.

ghost use Rattle.std.specs.Prelude.{◌≡◌, [], true, IfOk, IfSome};
ghost use Rattle.srp_build.specs.Plains.{IsNumberOf, IsGrownBy};

use crate::hashes::hash_of_map;
use base_kit::NoMemory;
use route_maps::laws::same_map_says_the_same;
use route_maps::{Plain, same_map};
use std::alloc::Global;
use std::collections::BTreeMap;

/// Plain maps by numbers. A map that is the same as an earlier one gets its number.
#[derive(Drop)]
pub struct Plains {
    pub maps: Vec<Plain>,
    by_hash: BTreeMap<u64, Vec<usize>>,
}

// Whether the map with the number is the same as this one.
fn is_same(maps: &[Plain], number: usize, map: &Plain) -> bool
    ensures { result ≡ true → IsNumberOf maps.now number map.now }
{
    same_map_says_the_same();
    match maps.get(number) {
        Some(other) => same_map(other, map),
        None => false,
    }
}

// The first of the numbers whose map is the same as this one.
fn same_among(maps: &[Plain], numbers: &[usize], map: &Plain) -> Option<usize>
    ensures { IfSome result (λ number. IsNumberOf maps.now number map.now) }
{
    for number in numbers {
        if is_same(maps, *number, map) {
            return Some(*number);
        }
    }
    None
}

impl Plains {
    /// No maps yet.
    pub fn new(alloc: Global) -> Self
        ensures { result.maps.items ≡ [] }
    {
        Plains {
            maps: Vec::new(alloc),
            by_hash: BTreeMap::new(alloc),
        }
    }

    // The numbers of the maps with this hash.
    fn numbers_at(&self, hash: u64) -> &[usize] {
        match self.by_hash.get(&hash) {
            Some(numbers) => numbers.as_slice(),
            None => &[],
        }
    }

    // Notes the hash of the map with this number.
    fn note(&mut self, alloc: Global, hash: u64, number: usize) -> Result<(), NoMemory>
        ensures { self.new.maps ≡ self.old.maps }
    {
        let mut numbers = self.by_hash.remove(&hash).unwrap_or(Vec::new(alloc));
        numbers.push(number)?;
        self.by_hash.insert(hash, numbers)?;
        Ok(())
    }

    /// The number of a map, which is put last unless one that is the same is there.
    pub fn number(&mut self, alloc: Global, map: Plain) -> Result<usize, NoMemory>
        ensures number { IfOk result (λ number. IsNumberOf self.new.maps.items number map) }
        ensures grown { IfOk result (IsGrownBy self.old.maps.items self.new.maps.items map) }
    {
        let hash = hash_of_map(&map);
        if let Some(number) = same_among(&self.maps, self.numbers_at(hash), &map) {
            return Ok(number);
        }
        let number = self.maps.len();
        self.maps.push(map)?;
        self.note(alloc, hash, number)?;
        Ok(number)
    }
}
