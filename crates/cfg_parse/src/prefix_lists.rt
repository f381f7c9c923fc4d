//! The prefix lists of a router.

ghost use Rattle.std.specs.Prelude.{◌≡◌, [], IfOk, OnOk};
ghost use Rattle.cfg_ast.specs.text.PolicyLines.{has_prefix_entry, with_prefix_entry};

use base_kit::{List, NoMemory, Text};
use cfg_ast::{PrefixEntry, PrefixList};
use named_lists::{NamedList, NumberedLists, fitted};
use numbered_names::NameHashing;
use std::alloc::Global;
use std::marker::Model;

/// The prefix lists of a router.
#[derive(Drop)]
pub(crate) struct PrefixLists {
    lists: NumberedLists<PrefixEntry>,
}

impl Model for PrefixLists {
    ghost use Rattle.std.specs.Prelude.{List, map};
    ghost use Rattle.cfg_ast.specs.declared.policy.PrefixList.{PrefixList};
    ghost use Rattle.cfg_parse.specs.NamedLists.{prefix_list_of};

    ghost Value = { List PrefixList };

    ghost view = { λ a. map prefix_list_of a.lists };
}

impl PrefixLists {
    pub(crate) fn new(alloc: Global, hashing: NameHashing) -> Self
        ensures { result ≡ [] }
    {
        PrefixLists {
            lists: NumberedLists::new(alloc, hashing),
        }
    }

    /// Whether the list of this name has an entry of this sequence number.
    pub(crate) fn has_entry(&self, name: &str, seq: u32) -> bool
        ensures { result ≡ has_prefix_entry self.now name.now seq }
    {
        self.lists.has_entry(name, seq)
    }

    /// Puts an entry into the list of its name, which it may begin.
    pub(crate) fn add(
        &mut self,
        alloc: Global,
        name: Text,
        entry: PrefixEntry,
    ) -> Result<(), NoMemory>
        ensures { OnOk result (self.new ≡ with_prefix_entry name entry self.old) }
    {
        self.lists.add(alloc, name, entry)
    }

    /// The lists, the entries of each by sequence number.
    pub(crate) fn into_list(self, alloc: Global) -> Result<List<PrefixList>, NoMemory>
        ensures { IfOk result (λ lists. lists ≡ self) }
    {
        let lists = self.lists.into_list(alloc)?.into_vec();
        let lists = lists
            .into_iter()
            .map(|NamedList { name, entries }| PrefixList { name, entries })
            .collect(alloc)?;
        Ok(fitted(lists))
    }
}
