//! The `network` lines of an OSPF process, each once.

ghost use Rattle.std.specs.Prelude.{◌≡◌, ◌++◌, ◌∷◌, [], IfOk, OnOk, OnErr};
ghost use Rattle.std.specs.List.{list_any};
ghost use Rattle.cfg_ast.specs.text.Stanzas.{same_area_line, with_area};
ghost use Rattle.cfg_stanzas.specs.Indexes.{area_key};

use base_kit::{List, NoMemory};
use cfg_ast::AreaLine;
use std::alloc::Global;
use std::collections::BTreeSet;
use std::marker::Model;

/// The `network` lines of an OSPF process, each listed once, with the set of what they say.
#[derive(Drop)]
pub(crate) struct Areas {
    items: List<AreaLine>,
    said: BTreeSet<(u32, u32, u32)>,
}

impl Model for Areas {
    ghost use Rattle.std.specs.Prelude.{List};
    ghost use Rattle.cfg_ast.specs.declared.ospf.AreaLine.{AreaLine};
    ghost use Rattle.cfg_stanzas.specs.Indexes.{HasKeys, area_order, area_key};

    ghost Value = { List AreaLine };

    ghost view = { λ a. a.items };

    ghost invariant = { λ a. HasKeys area_order area_key a.said a.items };
}

fn key_of(area: &AreaLine) -> (u32, u32, u32)
    ensures { result ≡ area_key area.now }
{
    (area.addr, area.wild, area.area)
}

impl Areas {
    pub(crate) fn new(alloc: Global) -> Self
        ensures { result ≡ [] }
    {
        Areas {
            items: List::new(alloc),
            said: BTreeSet::new(alloc),
        }
    }

    fn has(&self, area: &AreaLine) -> bool
        ensures { result ≡ list_any (same_area_line area.now) self.now }
    {
        self.said.contains(&key_of(area))
    }

    fn with_new(self, area: AreaLine) -> Result<Areas, NoMemory>
        ensures { IfOk result (λ all. all ≡ self ++ area ∷ []) }
    {
        let Areas {
            mut items,
            mut said,
        } = self;
        said.insert(key_of(&area))?;
        items.push(area)?;
        Ok(Areas { items, said })
    }

    /// Puts the line behind them if none of them says the same.
    ///
    /// # Errors
    /// Out of memory: then none is left.
    #[tactic(auto, unfolding(cfg_ast::specs::text::Stanzas::with_area))]
    pub(crate) fn add(&mut self, alloc: Global, area: AreaLine) -> Result<(), NoMemory>
        ensures ok { OnOk result (self.new ≡ with_area self.old area) }
        ensures err { OnErr result (self.new ≡ []) }
    {
        if self.has(&area) {
            return Ok(());
        }
        let others = std::mem::replace(self, Areas::new(alloc));
        *self = others.with_new(area)?;
        Ok(())
    }

    pub(crate) fn into_list(self) -> List<AreaLine>
        ensures { result ≡ self }
    {
        let Areas { items, .. } = self;
        items
    }
}
