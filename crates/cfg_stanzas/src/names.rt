//! Names, each listed once.

ghost use Rattle.std.specs.Prelude.{◌≡◌, [], IfOk};
ghost use Rattle.cfg_ast.specs.text.Stanzas.{with_text};

use base_kit::{List, NoMemory, Text};
use named_lists::ByName;
use numbered_names::NameHashing;
use std::alloc::Global;
use std::marker::Model;

/// Names, each listed once.
#[derive(Drop)]
pub(crate) struct Names {
    items: ByName<Text>,
}

impl Model for Names {
    ghost use Rattle.std.specs.Prelude.{List, ℕ};

    ghost Value = { List (List ℕ) };

    ghost view = { λ a. a.items };
}

impl Names {
    pub(crate) fn new(alloc: Global, hashing: NameHashing) -> Self
        ensures { result ≡ [] }
    {
        Names {
            items: ByName::new(alloc, hashing),
        }
    }

    /// Those, and the name behind them if it is not among them.
    #[tactic(auto, unfolding(cfg_ast::specs::text::Stanzas::with_text))]
    pub(crate) fn with(self, alloc: Global, name: Text) -> Result<Names, NoMemory>
        ensures { IfOk result (λ all. all ≡ with_text self name) }
    {
        let Names { mut items } = self;
        if !items.has(name.as_str()) {
            items.push(alloc, name)?;
        }
        Ok(Names { items })
    }

    pub(crate) fn into_list(self) -> List<Text>
        ensures { result ≡ self }
    {
        self.items.into_list()
    }
}
