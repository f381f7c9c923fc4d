//! The `network` lines of a BGP process, each once.

ghost use Rattle.std.specs.Prelude.{◌≡◌, ◌∷◌, ◌++◌, [], IfOk, OnOk, OnErr};
ghost use Rattle.cfg_ast.specs.text.Stanzas.{has_network};

use base_kit::{List, NoMemory, Prefix};
use cfg_ast::NetLine;
use std::alloc::Global;
use std::collections::BTreeSet;
use std::marker::Model;

/// The `network` lines of a BGP process, with the set of their prefixes.
#[derive(Drop)]
pub(crate) struct Networks {
    items: List<NetLine>,
    prefixes: BTreeSet<Prefix>,
}

impl Model for Networks {
    ghost use Rattle.std.specs.Prelude.{List};
    ghost use Rattle.cfg_ast.specs.declared.bgp.NetLine.{NetLine};
    ghost use Rattle.cfg_stanzas.specs.Indexes.{HasKeys, prefix_order, net_prefix};

    ghost Value = { List NetLine };

    ghost view = { λ a. a.items };

    ghost invariant = { λ a. HasKeys prefix_order net_prefix a.prefixes a.items };
}

impl Networks {
    pub(crate) fn new(alloc: Global) -> Self
        ensures { result ≡ [] }
    {
        Networks {
            items: List::new(alloc),
            prefixes: BTreeSet::new(alloc),
        }
    }

    /// Whether one of them has the prefix.
    pub(crate) fn has(&self, prefix: Prefix) -> bool
        ensures { result ≡ has_network self.now prefix }
    {
        self.prefixes.contains(&prefix)
    }

    fn with(self, net: NetLine) -> Result<Networks, NoMemory>
        ensures { IfOk result (λ all. all ≡ self ++ net ∷ []) }
    {
        let Networks {
            mut items,
            mut prefixes,
        } = self;
        prefixes.insert(net.prefix)?;
        items.push(net)?;
        Ok(Networks { items, prefixes })
    }

    /// Puts another one behind them.
    ///
    /// # Errors
    /// Out of memory: then none is left.
    pub(crate) fn add(&mut self, alloc: Global, net: NetLine) -> Result<(), NoMemory>
        ensures ok { OnOk result (self.new ≡ self.old ++ net ∷ []) }
        ensures err { OnErr result (self.new ≡ []) }
    {
        let others = std::mem::replace(self, Networks::new(alloc));
        *self = others.with(net)?;
        Ok(())
    }

    pub(crate) fn into_list(self) -> List<NetLine>
        ensures { result ≡ self }
    {
        let Networks { items, .. } = self;
        items
    }
}
