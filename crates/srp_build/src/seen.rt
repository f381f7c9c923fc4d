//! Lines of a router that name the same map and list.

ghost use Rattle.std.specs.Prelude.{◌≡◌, true, IfOk, IfSome};
ghost use Rattle.cfg_ast.specs.meaning.Policy.{name_of};
ghost use Rattle.srp_build.specs.Plains.{IsAsEarlier};

use crate::lines::{list_named, map_named};
use base_kit::NoMemory;
use cfg_ast::{Named, Neighbor};
use indexmap::IndexMap;
use numbered_names::{FEW, NameDigest, NameHashing};
use std::alloc::Global;

fn is_same_name(a: &Option<Named>, b: &Option<Named>) -> bool
    ensures { result ≡ true → name_of a.now ≡ name_of b.now }
{
    match (a, b) {
        (Some(a), Some(b)) => a.name.as_str() == b.name.as_str(),
        (None, None) => true,
        _ => false,
    }
}

// The number of the line at an earlier place, if that names the same map and the same list.
fn number_if_same(
    inbound: bool,
    lines: &[Neighbor],
    numbers: &[usize],
    line: &Neighbor,
    place: usize,
) -> Option<usize>
    ensures { IfSome result (IsAsEarlier inbound lines.now numbers.now line.now) }
{
    let number = numbers.get(place)?;
    let other = lines.get(place)?;
    if !is_same_name(map_named(inbound, other), map_named(inbound, line)) {
        return None;
    }
    if !is_same_name(list_named(inbound, other), list_named(inbound, line)) {
        return None;
    }
    Some(*number)
}

// The number of the line before, if that names the same map and the same list.
fn number_of_last(
    inbound: bool,
    lines: &[Neighbor],
    numbers: &[usize],
    line: &Neighbor,
) -> Option<usize>
    ensures { IfSome result (IsAsEarlier inbound lines.now numbers.now line.now) }
{
    let last = numbers.len().checked_sub(1)?;
    number_if_same(inbound, lines, numbers, line, last)
}

fn name_in(named: &Option<Named>) -> Option<&str> {
    match named {
        Some(named) => Some(named.name.as_str()),
        None => None,
    }
}

// The names of the map and the list of a line.
fn names_on(inbound: bool, line: &Neighbor) -> (Option<&str>, Option<&str>) {
    let map = name_in(map_named(inbound, line));
    let list = name_in(list_named(inbound, line));
    (map, list)
}

// How the names on the lines are hashed.
fn hashing_of(inbound: bool, lines: &[Neighbor]) -> NameHashing {
    if lines.len() <= FEW {
        return NameHashing::plain();
    }
    let mut names = NameDigest::new();
    for line in lines {
        let (map, list) = names_on(inbound, line);
        names.add(map.unwrap_or("").as_bytes());
        names.add(list.unwrap_or("").as_bytes());
    }
    names.hashing()
}

/// The lines of a router that were seen: of several that name the same map and the same list, only one.
/// The last line may not be noted yet, so that a router whose lines all name the same needs no index.
#[derive(Drop)]
pub struct Seen<'a> {
    by_names: IndexMap<(Option<&'a str>, Option<&'a str>), usize, NameHashing>,
    is_last_noted: bool,
}

impl<'a> Seen<'a> {
    /// None of the lines yet.
    pub fn new(alloc: Global, inbound: bool, lines: &'a [Neighbor]) -> Self {
        Seen {
            by_names: IndexMap::with_hasher(alloc, hashing_of(inbound, lines)),
            is_last_noted: false,
        }
    }

    // Notes the last of so many lines, unless that was done.
    fn note_last(
        &mut self,
        inbound: bool,
        lines: &'a [Neighbor],
        count: usize,
    ) -> Result<(), NoMemory> {
        if self.is_last_noted {
            return Ok(());
        }
        let Some(last) = count.checked_sub(1) else {
            return Ok(());
        };
        let Some(line) = lines.get(last) else {
            return Ok(());
        };
        self.by_names.insert(names_on(inbound, line), last)?;
        Ok(())
    }

    /// The number of an earlier line that names the same map and the same list. Most often that is the
    /// line before. `None` promises nothing: the line then gets a policy of its own, which costs time
    /// alone.
    pub fn known_number(
        &mut self,
        inbound: bool,
        lines: &'a [Neighbor],
        numbers: &[usize],
        line: &Neighbor,
    ) -> Result<Option<usize>, NoMemory>
        ensures { IfOk result (λ known. IfSome known (IsAsEarlier inbound lines.now numbers.now line.now)) }
    {
        if let Some(number) = number_of_last(inbound, lines, numbers, line) {
            return Ok(Some(number));
        }
        self.note_last(inbound, lines, numbers.len())?;
        let names = names_on(inbound, line);
        let known = match self.by_names.get(&names) {
            Some(place) => number_if_same(inbound, lines, numbers, line, *place),
            None => None,
        };
        self.is_last_noted = known.is_some();
        Ok(known)
    }
}
