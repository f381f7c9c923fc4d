//! The interfaces of a router, found by their names.

ghost use Rattle.std.specs.Prelude.{◌≡◌, ◌∷◌, ◌++◌, [], OnOk};
ghost use Rattle.cfg_ast.specs.text.Reading.{has_interface};

use base_kit::{List, NoMemory};
use cfg_ast::Interface;
use named_lists::ByName;
use numbered_names::NameHashing;
use std::alloc::Global;
use std::marker::Model;

/// The interfaces of a router, found by their names.
#[derive(Drop)]
pub(crate) struct Interfaces {
    items: ByName<Interface>,
}

impl Model for Interfaces {
    ghost use Rattle.std.specs.Prelude.{List};
    ghost use Rattle.cfg_ast.specs.declared.interface.Interface.{Interface};

    ghost Value = { List Interface };

    ghost view = { λ a. a.items };
}

impl Interfaces {
    pub(crate) fn new(alloc: Global, hashing: NameHashing) -> Self
        ensures { result ≡ [] }
    {
        Interfaces {
            items: ByName::new(alloc, hashing),
        }
    }

    /// Whether one of them has the name.
    #[tactic(auto, unfolding(cfg_ast::specs::text::Reading::has_interface))]
    pub(crate) fn has(&self, name: &str) -> bool
        ensures { result ≡ has_interface self.now name.now }
    {
        self.items.has(name)
    }

    /// Puts another one behind them.
    pub(crate) fn add(&mut self, alloc: Global, interface: Interface) -> Result<(), NoMemory>
        ensures { OnOk result (self.new ≡ self.old ++ interface ∷ []) }
    {
        self.items.push(alloc, interface)
    }

    pub(crate) fn into_list(self) -> List<Interface>
        ensures { result ≡ self }
    {
        self.items.into_list()
    }
}
