//! Items in order, each found by its name.

ghost use Rattle.std.specs.Prelude.{◌≡◌, ◌∷◌, ◌++◌, [], IfOk, OnOk, OnErr, bytes_eq};
ghost use Rattle.std.specs.List.{list_any};

use crate::places::Places;
use crate::room::fitted;
use base_kit::{List, NoMemory};
use numbered_names::{HasName, NameHashing};
use std::alloc::Global;
use std::marker::Model;

/// Items in the order in which they were put in, each found by its name.
#[derive(Drop)]
pub struct ByName<T: HasName + Drop> {
    items: List<T>,
    places: Places,
}

impl<T: HasName + Drop> Model for ByName<T> {
    ghost use Rattle.std.specs.Prelude.{List};
    ghost use Rattle.named_lists.specs.Tables.{IsTableOf};

    ghost Value = { List T };

    ghost view = { λ a. a.items };

    ghost invariant = { λ a. IsTableOf T.name a.items a.places.table };
}

impl<T: HasName + Drop> ByName<T> {
    /// None at all. The names of those that will be put in are hashed as given.
    pub fn new(alloc: Global, hashing: NameHashing) -> Self
        ensures { result ≡ [] }
    {
        ByName {
            items: List::new(alloc),
            places: Places::new(hashing),
        }
    }

    /// Whether one of them has the name.
    pub fn has(&self, name: &str) -> bool
        ensures { result ≡ list_any (λ x. bytes_eq (T.name x) name.now) self.now }
    {
        self.places.place_of(self.items.as_slice(), name).is_some()
    }

    // Those, and another one behind them.
    fn with(self, alloc: Global, item: T) -> Result<Self, NoMemory>
        ensures { IfOk result (λ all. all ≡ self ++ item ∷ []) }
    {
        let ByName {
            mut items,
            mut places,
        } = self;
        places.note(alloc, items.as_slice(), &item)?;
        items.push(item)?;
        Ok(ByName { items, places })
    }

    /// Puts another one behind them.
    ///
    /// # Errors
    /// Out of memory: then none is left.
    pub fn push(&mut self, alloc: Global, item: T) -> Result<(), NoMemory>
        ensures ok { OnOk result (self.new ≡ self.old ++ item ∷ []) }
        ensures err { OnErr result (self.new ≡ []) }
    {
        let all = std::mem::replace(self, ByName::new(alloc, NameHashing::plain()));
        *self = all.with(alloc, item)?;
        Ok(())
    }

    /// All items, in order.
    pub fn into_list(self) -> List<T>
        ensures { result ≡ self }
    {
        let ByName { items, .. } = self;
        fitted(items.into_vec())
    }
}
