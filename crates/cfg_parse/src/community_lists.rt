//! The community lists of a router.

ghost use Rattle.std.specs.Prelude.{◌≡◌, [], IfOk, OnOk};
ghost use Rattle.cfg_ast.specs.text.PolicyLines.{with_community_line};

use base_kit::{List, NoMemory, Text};
use cfg_ast::{CommunityLine, CommunityList};
use named_lists::{NamedList, NamedLists, fitted};
use numbered_names::NameHashing;
use std::alloc::Global;
use std::marker::Model;

/// The community lists of a router.
#[derive(Drop)]
pub(crate) struct CommunityLists {
    lists: NamedLists<CommunityLine>,
}

impl Model for CommunityLists {
    ghost use Rattle.std.specs.Prelude.{List, map};
    ghost use Rattle.cfg_ast.specs.declared.policy.CommunityList.{CommunityList};
    ghost use Rattle.cfg_parse.specs.NamedLists.{community_list_of};

    ghost Value = { List CommunityList };

    ghost view = { λ a. map community_list_of a.lists };
}

impl CommunityLists {
    pub(crate) fn new(alloc: Global, hashing: NameHashing) -> Self
        ensures { result ≡ [] }
    {
        CommunityLists {
            lists: NamedLists::new(alloc, hashing),
        }
    }

    /// Puts a line last into the list of its name, which it may begin.
    pub(crate) fn add(
        &mut self,
        alloc: Global,
        name: Text,
        line: CommunityLine,
    ) -> Result<(), NoMemory>
        ensures { OnOk result (self.new ≡ with_community_line name line self.old) }
    {
        self.lists.add(alloc, name, line)
    }

    /// The lists, in order.
    pub(crate) fn into_list(self, alloc: Global) -> Result<List<CommunityList>, NoMemory>
        ensures { IfOk result (λ lists. lists ≡ self) }
    {
        let lists = self.lists.into_list().into_vec();
        let lists = lists
            .into_iter()
            .map(|NamedList { name, entries }| CommunityList {
                name,
                lines: entries,
            })
            .collect(alloc)?;
        Ok(fitted(lists))
    }
}
