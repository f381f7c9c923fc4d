//! What decides the color of a router.

ghost use Rattle.std.specs.Prelude.{◌≡◌, ◌⊎◌, ◌++◌, ◌∷◌, [], length, Some, slice_get, IfOk};
ghost use Rattle.srp_core.specs.Starts.{start_of};

use crate::route::Route;
use base_kit::NoMemory;
use indexmap::IndexMap;
use std::alloc::Global;
use std::marker::Model;

/// What decides the color of a router: that it is lone, that it does not originate, or the one number
/// by which initial routes differ.
#[derive(Clone, Copy, Debug, PartialEq, Eq, Hash)]
pub enum Start {
    Alone(u32),
    Silent,
    Preference(u32),
    Cost(u32),
}

impl Start {
    /// The start of a router.
    pub fn of(lone: bool, router: u32, init: &Option<Route>) -> Start
        ensures { result ≡ start_of lone router init.now }
    {
        if lone {
            return Start::Alone(router);
        }
        match init {
            None => Start::Silent,
            Some(Route::Bgp { lp, .. }) => Start::Preference(*lp),
            Some(Route::Ospf { cost }) => Start::Cost(*cost),
        }
    }
}

/// Starts that are all different, each numbered by its place.
#[derive(Drop)]
pub struct Starts {
    items: IndexMap<Start, ()>,
}

impl Model for Starts {
    ghost use Rattle.std.specs.Prelude.{List};
    ghost use Rattle.indexmap.specs.IndexMap.{keys};
    ghost use Rattle.srp_core.specs.declared.starts.Start.{Start};
    ghost use Rattle.distinct_values.specs.Distinct.{AreDistinct};

    ghost Value = { List Start };

    ghost view = { λ s. keys s.items };

    ghost invariant = { λ s. AreDistinct (keys s.items) };
}

impl Starts {
    ghost use Rattle.distinct_values.specs.Distinct.{AreDistinct};

    /// No starts yet.
    pub fn new(alloc: Global) -> Self
        ensures { result ≡ [] }
    {
        Starts {
            items: IndexMap::new(alloc),
        }
    }

    /// The number of the start, which is put last if it is not there yet.
    pub fn number(&mut self, start: Start) -> Result<usize, NoMemory>
        ensures found { IfOk result (λ place. slice_get self.new place ≡ Some start) }
        ensures grown { (self.new ≡ self.old) ⊎ (self.new ≡ self.old ++ start ∷ []) }
        ensures distinct { AreDistinct self.new }
    {
        let (place, _) = self.items.insert_full(start, ())?;
        Ok(place)
    }
}
