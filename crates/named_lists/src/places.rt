//! The places of items by their names.

ghost use Rattle.std.specs.Prelude.{◌≡◌, ◌≤◌, ◌∷◌, ◌++◌, [], None, true, IfOk, OnOk, bytes_eq, length, take};
ghost use Rattle.std.specs.List.{position};
ghost use Rattle.numbered_names.specs.NamePlaces.{ArePlacesOf};
ghost use Rattle.named_lists.specs.Tables.{IsTableOf};

use base_kit::NoMemory;
use numbered_names::{HasName, NameHashing, NamePlaces};
use std::alloc::Global;

// So many items are found without a table: to hash a name takes longer than to compare it with so many.
const FEW: usize = 32;

/// How items are found by their names: one by one, or by a table if they are many.
#[derive(Drop)]
pub(crate) struct Places {
    pub(crate) hashing: NameHashing,
    pub(crate) table: Option<NamePlaces>,
}

// Whether words are as long as each other and end alike, as those that are the same do.
fn may_be_same(word: &[u8], other: &[u8]) -> bool
    ensures { word.now ≡ other.now → result ≡ true }
{
    let count = word.len();
    count == other.len() && (count == 0 || word[count - 1] == other[count - 1])
}

// Whether names are the same. The names of a router mostly count up, so their ends tell most of them
// apart, which takes no call.
fn are_same(name: &str, other: &str) -> bool
    ensures { result ≡ bytes_eq name.now other.now }
{
    may_be_same(name.as_bytes(), other.as_bytes()) && name == other
}

// The place of the first item that has the name.
fn first_named<T: HasName>(items: &[T], name: &str) -> Option<usize>
    ensures { result ≡ position (λ x. bytes_eq (T.name x) name.now) items.now }
{
    items.iter().position(|item| are_same(item.name(), name))
}

// The items before a place.
fn before<T>(items: &[T], place: usize) -> &[T]
    requires { place ≤ length items.now }
    ensures { result.now ≡ take place items.now }
{
    &items[..place]
}

// A table of the places of all items.
fn table_of<T: HasName>(
    alloc: Global,
    hashing: NameHashing,
    items: &[T],
) -> Result<NamePlaces, NoMemory>
    ensures { IfOk result (λ table. ArePlacesOf T.name table items.now) }
{
    let mut table = NamePlaces::new(alloc, hashing);
    let mut place = 0;
    while place < items.len() {
        table.note(alloc, before(items, place), &items[place])?;
        place += 1;
    }
    Ok(table)
}

// Notes an item that stands behind the others, if there is a table.
fn note_in<T: HasName>(
    table: &mut Option<NamePlaces>,
    alloc: Global,
    items: &[T],
    item: &T,
) -> Result<(), NoMemory>
    requires { IsTableOf T.name items.now table.old }
    ensures { OnOk result (IsTableOf T.name (items.now ++ item.now ∷ []) table.new) }
{
    match table {
        Some(table) => table.note(alloc, items, item),
        None => Ok(()),
    }
}

impl Places {
    /// The places of no items. The names of those that will come are hashed as given.
    pub(crate) fn new(hashing: NameHashing) -> Self
        ensures { result.table ≡ None }
    {
        Places {
            hashing,
            table: None,
        }
    }

    /// The place of the first of the items that has the name.
    pub(crate) fn place_of<T: HasName>(&self, items: &[T], name: &str) -> Option<usize>
        requires { IsTableOf T.name items.now self.now.table }
        ensures { result ≡ position (λ x. bytes_eq (T.name x) name.now) items.now }
    {
        match &self.table {
            Some(table) => table.place_of(name),
            None => first_named(items, name),
        }
    }

    /// Notes an item that stands behind the others.
    pub(crate) fn note<T: HasName>(
        &mut self,
        alloc: Global,
        items: &[T],
        item: &T,
    ) -> Result<(), NoMemory>
        requires { IsTableOf T.name items.now self.old.table }
        ensures { OnOk result (IsTableOf T.name (items.now ++ item.now ∷ []) self.new.table) }
    {
        if self.table.is_none() && items.len() >= FEW {
            self.table = Some(table_of(alloc, self.hashing, items)?);
        }
        note_in(&mut self.table, alloc, items, item)
    }
}
