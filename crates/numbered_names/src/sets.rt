//! Sets of names.

ghost use Rattle.std.specs.Prelude.{◌≡◌, ℕ, List, IfOk, OnOk, OnErr, not, false};

use crate::hashing::NameHashing;
use base_kit::NoMemory;
use indexmap::IndexSet;
use std::alloc::Global;

/// A set of names, which it does not copy.
#[derive(Drop)]
pub struct NameSet<'a> {
    names: IndexSet<&'a str, NameHashing>,
}

impl<'a> NameSet<'a> {
    ghost use Rattle.numbered_names.specs.NameSets.{has_name, AddsName};

    /// The set without names.
    pub fn new(alloc: Global, hashing: NameHashing) -> Self
        ensures { (name : List ℕ) → has_name result name ≡ false }
    {
        NameSet {
            names: IndexSet::with_hasher(alloc, hashing),
        }
    }

    /// Whether it has the name.
    pub fn contains(&self, name: &str) -> bool
        ensures { result ≡ has_name self.now name.now }
    {
        self.names.contains(name)
    }

    /// Puts a name in, and returns whether it is new.
    ///
    /// # Errors
    /// Out of memory: then it has the names that it had.
    pub fn insert(&mut self, name: &'a str) -> Result<bool, NoMemory>
        ensures new { IfOk result (λ is_new. is_new ≡ not (has_name self.old name.now)) }
        ensures adds { OnOk result (AddsName self.old self.new name.now) }
        ensures err { OnErr result ((other : List ℕ) → has_name self.new other ≡ has_name self.old other) }
    {
        let is_new = self.names.insert(name)?;
        Ok(is_new)
    }
}
