//! Pairs of names, found by a hash.

ghost use Rattle.std.specs.Prelude.{◌≡◌, ◌||◌, ℕ, List, OnOk, false};

use base_kit::NoMemory;
use indexmap::IndexSet;
use numbered_names::NameHashing;
use std::alloc::Global;

/// A set of pairs of names, which it does not copy.
#[derive(Drop)]
pub struct NamePairs<'a> {
    pairs: IndexSet<(&'a str, &'a str), NameHashing>,
}

impl<'a> NamePairs<'a> {
    ghost use Rattle.ask_names.specs.NamePairs.{has_pair, AddsPair};

    /// The set without pairs.
    pub fn new(alloc: Global, hashing: NameHashing) -> Self
        ensures { (first second : List ℕ) → has_pair result first second ≡ false }
    {
        NamePairs {
            pairs: IndexSet::with_hasher(alloc, hashing),
        }
    }

    /// Whether it has the pair, in one order or the other.
    pub fn has_either(&self, first: &str, second: &str) -> bool
        ensures { result ≡ (has_pair self.now first.now second.now || has_pair self.now second.now first.now) }
    {
        self.pairs.contains(&(first, second)) || self.pairs.contains(&(second, first))
    }

    /// Puts a pair in.
    ///
    /// # Errors
    /// Out of memory.
    pub fn insert(&mut self, first: &'a str, second: &'a str) -> Result<(), NoMemory>
        ensures { OnOk result (AddsPair self.old self.new first.now second.now) }
    {
        self.pairs.insert((first, second))?;
        Ok(())
    }
}
