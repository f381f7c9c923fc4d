//! Tables of two parts of a map, of which the first decides if one of its entries holds.

ghost use Rattle.std.specs.Prelude.{◌≡◌, ◌<◌, length, IfOk, ◌&&◌, not, false};
ghost use Rattle.base_kit.specs.Sets.{IsAscending};
ghost use Rattle.dd_core.specs.Sets.{value_of, Grows};
ghost use Rattle.policy_dd.specs.Edge.{case_or, keys_of};
ghost use Rattle.policy_dd.specs.Tables.{AllInside, IsTableGrown};

use crate::matches::without;
use crate::tables::{key_in, node_in, or_into};
use base_kit::{List, NoMemory};
use dd_core::{NodeId, Store};

/// The cases, joined to those of `more` where `unless` is false.
pub fn or_unless(
    store: &mut Store,
    cases: List<(u32, NodeId)>,
    more: &[(u32, NodeId)],
    unless: NodeId,
) -> Result<List<(u32, NodeId)>, NoMemory>
    requires inside { AllInside store.old cases }
    requires more_inside { AllInside store.old more.now }
    requires ascending { IsAscending (keys_of more.now) }
    requires unless_inside { unless < length store.old.nodes }
    ensures grows { Grows store.old store.new }
    ensures more { IfOk result (λ r. IsTableGrown store.old store.new cases r (keys_of more.now) (λ k set. not (value_of store.old set unless) && case_or store.old set more.now k false)) }
{
    let mut all = cases;
    for case in more {
        let key = key_in(case);
        let there = node_in(case);
        let node = without(store, there, unless)?;
        all = or_into(store, all, key, node)?;
    }
    Ok(all)
}
