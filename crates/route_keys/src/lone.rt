//! The lone routers on paths.

ghost use Rattle.std.specs.Prelude.{◌≡◌, ◌&&◌, ◌||◌, ℕ, IfOk, Some, length, nat_eq, not};
ghost use Rattle.std.specs.Option.{option_eq};
ghost use Rattle.base_kit.specs.Sets.{has, IsAscending};
ghost use Rattle.std.specs.HashSet.{contains};
ghost use Rattle.srp_core.specs.Problem.{has_marked_number};
ghost use Rattle.srp_core.specs.Routes.{chosen, is_on, path_of};
ghost use Rattle.route_keys.specs.Lone.{HasLoneNumbers};

use crate::parts::path_of;
use base_kit::{NoMemory, NumSet};
use number_hashing::{NumberDigest, NumberHashing};
use srp_core::{Route, Srp};
use std::alloc::Global;
use std::collections::HashSet;

/// The AS numbers of lone routers.
pub type LoneNumbers = HashSet<u32, NumberHashing>;

fn with_marked(numbers: LoneNumbers, mark: bool, number: u32) -> Result<LoneNumbers, NoMemory>
    ensures { IfOk result (λ more. (n : ℕ) → contains nat_eq more n ≡ (mark && nat_eq number n) || contains nat_eq numbers n) }
{
    if !mark {
        return Ok(numbers);
    }
    let mut numbers = numbers;
    numbers.insert(number)?;
    Ok(numbers)
}

// The hash for a table of these numbers.
fn hashing_of(numbers: &[u32]) -> NumberHashing {
    let mut digest = NumberDigest::for_count(numbers.len());
    for number in numbers {
        digest.add_number(u64::from(*number));
    }
    digest.hashing()
}

// The numbers of the marked routers.
fn marked(alloc: Global, marks: &[bool], numbers: &[u32]) -> Result<LoneNumbers, NoMemory>
    requires { length marks.now ≡ length numbers.now }
    ensures { IfOk result (λ set. (n : ℕ) → contains nat_eq set n ≡ has_marked_number marks.now numbers.now n) }
{
    let mut set: LoneNumbers = HashSet::with_hasher(alloc, hashing_of(numbers));
    let mut place = marks.len();
    while place > 0 {
        place -= 1;
        set = with_marked(set, marks[place], numbers[place])?;
    }
    Ok(set)
}

fn differs(last: Option<u32>, number: u32) -> bool
    ensures { result ≡ not (option_eq nat_eq last (Some number)) }
{
    match last {
        Some(other) => other != number,
        None => true,
    }
}

// The numbers of a path that are in the set. Runs of one number give it once.
fn met(alloc: Global, numbers: &LoneNumbers, path: &[u32]) -> Result<Vec<u32>, NoMemory>
    ensures { IfOk result (λ found. (n : ℕ) → has found.items n ≡ contains nat_eq numbers.now n && is_on n path.now) }
{
    let mut found = Vec::new(alloc);
    let mut last = None;
    for number in path {
        if differs(last, *number) && numbers.contains(number) {
            found.push(*number)?;
            last = Some(*number);
        }
    }
    Ok(found)
}

// The set of some numbers.
fn as_set(alloc: Global, numbers: Vec<u32>) -> NumSet
    ensures members { (n : ℕ) → has result n ≡ has numbers.items n }
    ensures ascending { IsAscending result }
{
    let mut numbers = numbers;
    numbers.sort_unstable();
    numbers.dedup();
    NumSet::from_ascending(alloc, numbers)
}

// The numbers of a path that are in the set, ascending.
fn chosen(alloc: Global, numbers: &LoneNumbers, path: &[u32]) -> Result<NumSet, NoMemory>
    ensures { IfOk result (λ set. set ≡ chosen (contains nat_eq numbers.now) path.now) }
{
    let found = met(alloc, numbers, path)?;
    Ok(as_set(alloc, found))
}

/// The numbers on the path of a route that are in the set, ascending. With `lone_numbers` they are those
/// of lone routers, by which keys of routes differ.
pub fn lone_on(alloc: Global, numbers: &LoneNumbers, route: &Route) -> Result<NumSet, NoMemory>
    ensures { IfOk result (λ set. set ≡ chosen (contains nat_eq numbers.now) (path_of route.now)) }
{
    chosen(alloc, numbers, path_of(route))
}

/// The numbers of the lone routers of a problem, looked up in constant time.
pub fn lone_numbers(alloc: Global, srp: &Srp) -> Result<LoneNumbers, NoMemory>
    ensures { IfOk result (HasLoneNumbers srp.now) }
{
    let _known = srp.count();
    marked(alloc, srp.lone(), srp.numbers())
}
