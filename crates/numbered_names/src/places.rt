//! The places of names, found by a hash.

ghost use Rattle.std.specs.Prelude.{◌≡◌, ◌^◌, ◌∷◌, ◌++◌, [], ℕ, List, None, IfOk, OnOk, OnErr, bytes_eq, find, option_copied, slice_get};

use crate::has_name::HasName;
use crate::hashing::NameHashing;
use base_kit::NoMemory;
use indexmap::IndexMap;
use std::alloc::Global;

/// The places of names.
#[derive(Drop)]
pub struct NamePlaces {
    places: IndexMap<String, usize, NameHashing>,
}

fn item_at<T>(items: &[T], place: usize) -> Option<&T>
    ensures { option_copied result ≡ slice_get items.now place }
{
    items.get(place)
}

impl NamePlaces {
    ghost use Rattle.numbered_names.specs.NamePlaces.{AreBelow, ArePlacesOf, place_in};

    /// The places of no names, which are hashed as given.
    pub fn new(alloc: Global, hashing: NameHashing) -> Self
        ensures { (name : List ℕ) → place_in result name ≡ None }
    {
        NamePlaces {
            places: IndexMap::with_hasher(alloc, hashing),
        }
    }

    /// Notes the place of an item that stands behind the others, if it is the first of its name.
    ///
    /// # Errors
    /// Out of memory: then the names of the others still have their places.
    pub fn note<T: HasName>(&mut self, alloc: Global, items: &[T], item: &T) -> Result<(), NoMemory>
        requires { ArePlacesOf T.name self.old items.now }
        ensures ok { OnOk result (ArePlacesOf T.name self.new (items.now ++ item.now ∷ [])) }
        ensures err { OnErr result (ArePlacesOf T.name self.new items.now) }
    {
        let name = item.name();
        if self.place_of(name).is_none() {
            let key = String::from_str(alloc, name)?;
            self.places.insert(key, items.len())?;
        }
        Ok(())
    }

    /// The places of the names of items. If several items have one name, its place is that of the first.
    pub fn of<T: HasName>(alloc: Global, items: &[T]) -> Result<Self, NoMemory>
        ensures { IfOk result (λ places. ArePlacesOf T.name places items.now) }
    {
        let hashing = NameHashing::of(items);
        let mut places: IndexMap<String, usize, NameHashing> = IndexMap::with_hasher(
            alloc, hashing,
        );
        let mut place = items.len();
        while place > 0 {
            place -= 1;
            let name = String::from_str(alloc, items[place].name())?;
            places.insert(name, place)?;
        }
        Ok(NamePlaces { places })
    }

    /// The place of a name, if it has one.
    pub fn place_of(&self, name: &str) -> Option<usize>
        ensures { result ≡ place_in self.now name.now }
    {
        self.places.get(name).copied()
    }

    /// The place of the name that a word is, if it is one that has a place.
    pub fn place_of_word(&self, word: &[u8]) -> Option<usize>
        ensures { result ≡ place_in self.now word.now }
    {
        match std::str::from_utf8(word) {
            Ok(name) => self.place_of(name),
            Err(_) => None,
        }
    }

    /// The place of the name that a word is, as a number of 32 bits, if it is one that has a place.
    pub fn number_of_word(&self, word: &[u8]) -> Option<u32>
        requires { AreBelow self.now (2 ^ 32) }
        ensures { result ≡ place_in self.now word.now }
    {
        match self.place_of_word(word) {
            Some(place) => Some(place as u32),
            None => None,
        }
    }

    /// The first of the items that has the name.
    pub fn item_named<'a, T: HasName>(&self, items: &'a [T], name: &str) -> Option<&'a T>
        requires { ArePlacesOf T.name self.now items.now }
        ensures { option_copied result ≡ find (λ x. bytes_eq (T.name x) name.now) items.now }
    {
        match self.place_of(name) {
            Some(place) => item_at(items, place),
            None => None,
        }
    }
}
