//! Lists under names.

ghost use Rattle.std.specs.Prelude.{◌≡◌, ◌<◌, ◌∷◌, ◌++◌, [], IfOk, OnOk, OnErr, bytes_eq, length, slice_set};
ghost use Rattle.std.specs.List.{position};
ghost use Rattle.named_lists.specs.NamedLists.{list_at, entries_at, with_last, in_named};

use crate::places::Places;
use crate::room::pushed;
use base_kit::{List, NoMemory, Text};
use numbered_names::{HasName, NameHashing};
use std::alloc::Global;
use std::marker::Model;

/// Entries under a name.
#[derive(Drop)]
pub struct NamedList<E> {
    pub name: Text,
    pub entries: List<E>,
}

impl<E: Drop> HasName for NamedList<E> {
    ghost name = { λ l. l.name };

    fn name(&self) -> &str {
        self.name.as_str()
    }
}

/// Lists in the order in which their names came, each found by its name.
#[derive(Drop)]
pub struct NamedLists<E: Drop> {
    lists: Vec<NamedList<E>>,
    places: Places,
}

impl<E: Drop> Model for NamedLists<E> {
    ghost use Rattle.std.specs.Prelude.{List};
    ghost use Rattle.named_lists.specs.declared.named.NamedList.{NamedList};
    ghost use Rattle.named_lists.specs.NamedLists.{named_list_name};
    ghost use Rattle.named_lists.specs.Tables.{IsTableOf};

    ghost Value = { List (NamedList E) };

    ghost view = { λ a. a.lists.items };

    ghost invariant = { λ a. IsTableOf named_list_name a.lists.items a.places.table };
}

impl<E: Drop> NamedLists<E> {
    /// No list. The names of those that will be begun are hashed as given.
    pub fn new(alloc: Global, hashing: NameHashing) -> Self
        ensures { result ≡ [] }
    {
        NamedLists {
            lists: Vec::new(alloc),
            places: Places::new(hashing),
        }
    }

    /// The place of the list of the name.
    pub(crate) fn place_of(&self, name: &str) -> Option<usize>
        ensures { result ≡ position (λ l. bytes_eq l.name name.now) self.now }
    {
        self.places.place_of(self.lists.as_slice(), name)
    }

    /// The entries of the list at a place.
    pub(crate) fn entries(&self, place: usize) -> &[E]
        requires { place < length self.now }
        ensures { result.now ≡ entries_at self.now place }
    {
        let list = &self.lists[place];
        list.entries.as_slice()
    }

    /// Puts an entry last into the list at a place.
    pub(crate) fn push_at(&mut self, alloc: Global, place: usize, entry: E) -> Result<(), NoMemory>
        requires { place < length self.old }
        ensures { OnOk result (self.new ≡ slice_set self.old place (with_last entry (list_at self.old place))) }
    {
        let list = &mut self.lists[place];
        let entries = std::mem::replace(&mut list.entries, List::new(alloc));
        list.entries = pushed(entries, entry)?;
        Ok(())
    }

    // Those, and another list behind them.
    fn with(self, alloc: Global, list: NamedList<E>) -> Result<Self, NoMemory>
        ensures { IfOk result (λ all. all ≡ self ++ list ∷ []) }
    {
        let NamedLists { lists, mut places } = self;
        places.note(alloc, lists.as_slice(), &list)?;
        let lists = pushed(List::from_vec(lists), list)?.into_vec();
        Ok(NamedLists { lists, places })
    }

    /// Begins another list behind them.
    pub(crate) fn begin(&mut self, alloc: Global, name: Text, entry: E) -> Result<(), NoMemory>
        ensures { OnOk result (self.new ≡ self.old ++ (record { name = name; entries = entry ∷ [] }) ∷ []) }
    {
        let entries = pushed(List::new(alloc), entry)?;
        let all = std::mem::replace(self, NamedLists::new(alloc, NameHashing::plain()));
        *self = all.with(alloc, NamedList { name, entries })?;
        Ok(())
    }

    // Puts an entry last into the list of its name, which it may begin.
    fn put(&mut self, alloc: Global, name: Text, entry: E) -> Result<(), NoMemory>
        ensures { OnOk result (self.new ≡ in_named name (λ entries. entries ++ entry ∷ []) self.old) }
    {
        match self.place_of(name.as_str()) {
            Some(place) => self.push_at(alloc, place, entry),
            None => self.begin(alloc, name, entry),
        }
    }

    /// Puts an entry last into the list of its name, which it may begin.
    ///
    /// # Errors
    /// Out of memory: then no list is left.
    pub fn add(&mut self, alloc: Global, name: Text, entry: E) -> Result<(), NoMemory>
        ensures ok { OnOk result (self.new ≡ in_named name (λ entries. entries ++ entry ∷ []) self.old) }
        ensures err { OnErr result (self.new ≡ []) }
    {
        if let Err(error) = self.put(alloc, name, entry) {
            // The list of the name may have lost its entries: none is kept.
            *self = NamedLists::new(alloc, NameHashing::plain());
            return Err(error);
        }
        Ok(())
    }

    /// The lists, in order.
    pub fn into_list(self) -> List<NamedList<E>>
        ensures { result ≡ self }
    {
        let NamedLists { lists, .. } = self;
        List::from_vec(lists)
    }
}
