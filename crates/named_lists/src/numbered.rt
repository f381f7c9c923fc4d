//! Lists under names, whose entries have numbers.

ghost use Rattle.std.specs.Prelude.{◌≡◌, ◌++◌, ◌∷◌, [], ℕ, IfOk, OnOk, OnErr, map};
ghost use Rattle.named_lists.specs.NamedLists.{in_named};
ghost use Rattle.named_lists.specs.NumberedLists.{IsHeld, in_number_order, in_order, put, has_entry};

use crate::named::{NamedList, NamedLists};
use crate::numbers::{has_number, hold};
use base_kit::{List, NoMemory, Text};
use cfg_ast::{MapEntry, PrefixEntry};
use numbered_names::NameHashing;
use std::alloc::Global;
use std::collections::BTreeSet;
use std::marker::Model;

/// What has a sequence number.
pub trait Numbered: Drop {
    ghost number: { Self → ℕ };

    /// The number.
    fn number(&self) -> u32
        ensures { result ≡ number self.now };
}

// The entries of cfg_ast that have numbers. The impls stand beside the trait, since cfg_parse, which
// needs them, has neither the trait nor the types.

impl Numbered for PrefixEntry {
    ghost number = { λ e. e.seq };

    fn number(&self) -> u32 {
        self.seq
    }
}

impl Numbered for MapEntry {
    ghost number = { λ e. e.seq };

    fn number(&self) -> u32 {
        self.seq
    }
}

/// Lists in the order in which their names came, the entries of each by their numbers. They are put in
/// order only at the end.
#[derive(Drop)]
pub struct NumberedLists<E: Numbered> {
    lists: NamedLists<E>,
    numbers: BTreeSet<(usize, u32)>,
}

impl<E: Numbered> Model for NumberedLists<E> {
    ghost use Rattle.std.specs.Prelude.{List, map};
    ghost use Rattle.named_lists.specs.declared.named.NamedList.{NamedList};
    ghost use Rattle.named_lists.specs.NumberedLists.{IsHeld, in_order};

    ghost Value = { List (NamedList E) };

    ghost view = { λ a. map (in_order E.number) a.lists };

    ghost invariant = { λ a. IsHeld E.number a.numbers a.lists };
}

// Puts an entry last into the list of its name, and its number into the set where it belongs there.
fn put_last<E: Numbered>(
    alloc: Global,
    lists: &mut NamedLists<E>,
    numbers: &mut BTreeSet<(usize, u32)>,
    name: Text,
    entry: E,
) -> Result<(), NoMemory>
    requires { IsHeld E.number numbers.old lists.old }
    ensures held { OnOk result (IsHeld E.number numbers.new lists.new) }
    ensures added { OnOk result (lists.new ≡ in_named name (λ entries. entries ++ entry ∷ []) lists.old) }
{
    match lists.place_of(name.as_str()) {
        Some(place) => {
            hold(numbers, place, lists.entries(place), entry.number())?;
            lists.push_at(alloc, place, entry)
        }
        None => lists.begin(alloc, name, entry),
    }
}

// The entries ordered by number; those of one number keep their order.
fn by_number<E: Numbered>(entries: List<E>) -> Result<List<E>, NoMemory>
    ensures { IfOk result (λ all. all ≡ in_number_order E.number entries) }
{
    let mut entries = entries.into_vec();
    if !entries.is_sorted_by_key(|entry| entry.number()) {
        entries.sort_by_key(|entry| entry.number())?;
    }
    Ok(List::from_vec(entries))
}

// Puts the entries of each list in order.
fn all_in_order<E: Numbered>(
    alloc: Global,
    lists: List<NamedList<E>>,
) -> Result<List<NamedList<E>>, NoMemory>
    ensures { IfOk result (λ all. all ≡ map (in_order E.number) lists) }
{
    let mut lists = lists.into_vec();
    for list in lists.iter_mut() {
        let entries = std::mem::replace(&mut list.entries, List::new(alloc));
        list.entries = by_number(entries)?;
    }
    Ok(List::from_vec(lists))
}

impl<E: Numbered> NumberedLists<E> {
    /// No list. The names of those that will be begun are hashed as given.
    pub fn new(alloc: Global, hashing: NameHashing) -> Self
        ensures { result ≡ [] }
    {
        NumberedLists {
            lists: NamedLists::new(alloc, hashing),
            numbers: BTreeSet::new(alloc),
        }
    }

    /// Whether the list of this name has an entry of this number.
    pub fn has_entry(&self, name: &str, number: u32) -> bool
        ensures { result ≡ has_entry E.number self.now name.now number }
    {
        match self.lists.place_of(name) {
            Some(place) => { has_number(&self.numbers, place, self.lists.entries(place), number) }
            None => false,
        }
    }

    /// Puts an entry into the list of its name, which it may begin.
    ///
    /// # Errors
    /// Out of memory: then no list is left.
    pub fn add(&mut self, alloc: Global, name: Text, entry: E) -> Result<(), NoMemory>
        ensures ok { OnOk result (self.new ≡ in_named name (put E.number entry) self.old) }
        ensures err { OnErr result (self.new ≡ []) }
    {
        if let Err(error) = put_last(alloc, &mut self.lists, &mut self.numbers, name, entry) {
            // The set may be ahead of the lists: none of them is kept.
            *self = NumberedLists::new(alloc, NameHashing::plain());
            return Err(error);
        }
        Ok(())
    }

    /// The lists, in order.
    ///
    /// # Errors
    /// Out of memory.
    pub fn into_list(self, alloc: Global) -> Result<List<NamedList<E>>, NoMemory>
        ensures { IfOk result (λ lists. lists ≡ self) }
    {
        let NumberedLists { lists, numbers } = self;
        // It goes before entries are sorted, so that not both take memory at once.
        drop(numbers);
        all_in_order(alloc, lists.into_list())
    }
}
