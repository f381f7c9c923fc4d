//! What the maps of both ends do to a route.

ghost use Rattle.std.specs.Prelude.{◌≡◌, ◌<◌, length, IfOk, true};
ghost use Rattle.std.specs.List.{AllByRecursion};
ghost use Rattle.base_kit.specs.Sets.{has, IsAscending};
ghost use Rattle.dd_core.specs.Sets.{value_of, Grows, Means};
ghost use Rattle.route_maps.specs.Maps.{import_of};
ghost use Rattle.route_maps.specs.Within.{IsEntryWithin, IsMapWithin};
ghost use Rattle.policy_dd.specs.Built.{IsCrossed};
ghost use Rattle.policy_dd.specs.Deletion.{put_by_change};
ghost use Rattle.policy_dd.specs.Edge.{IsEdgeFn};
ghost use Rattle.policy_dd.specs.Import.{HasAscendingChange, others_kept};

use crate::EdgeFn;
use crate::after::{after, sent};
use crate::join::joined;
use crate::map_run::{MapFn, run_map};
use crate::matches::Carried;
use base_kit::{List, NoMemory};
use cfg_ast::Change;
use dd_core::{NodeId, Store};
use route_maps::{Plain, PlainEntry};
use std::alloc::Global;

/// What the maps of both ends do, and what is carried in the end.
pub struct Crossing {
    pub first: MapFn,
    pub second: MapFn,
    pub end: Carried,
}

// One call where a crossing is dropped, in place of the drops of all its tables.
impl Drop for Crossing {
    fn drop(self) {
        let Crossing {
            first: _first,
            second: _second,
            end: _end,
        } = self;
    }
}

// Reading a set shows that it ascends.
fn read_change(change: &Option<Change>)
    ensures { IsAscending (put_by_change change.now) }
{
    match change {
        Some(Change::Replace(by)) => {
            let _known = by.as_slice();
        }
        Some(Change::Append(more)) => {
            let _known = more.as_slice();
        }
        Some(Change::Clear) => {}
        None => {}
    }
}

fn read_changes(entries: &[PlainEntry])
    ensures { AllByRecursion HasAscendingChange entries.now }
{
    for entry in entries {
        read_change(&entry.change);
    }
}

/// What a session does to a set. `others` tells whether the set has communities outside the universe.
fn cross(
    alloc: Global,
    store: &mut Store,
    out: &[PlainEntry],
    sends: bool,
    into: &[PlainEntry],
    others: NodeId,
) -> Result<Crossing, NoMemory>
    requires out { AllByRecursion (IsEntryWithin store.old.universe) out.now }
    requires into { AllByRecursion (IsEntryWithin store.old.universe) into.now }
    requires others { others < length store.old.nodes }
    ensures grows { Grows store.old store.new }
    ensures crossed { IfOk result (IsCrossed store.new store.old.universe (λ set. value_of store.old set others) out.now sends into.now) }
{
    let always = store.constant(true);
    let start = Carried {
        outs: List::new(alloc),
        rest: always,
        others,
    };
    let first = run_map(alloc, store, &start, out)?;
    let arrived = sent(alloc, store, &start, &first, sends)?;
    let second = run_map(alloc, store, &arrived, into)?;
    let end = after(alloc, store, &arrived, &second)?;
    Ok(Crossing { first, second, end })
}

fn others_of(carried: &Carried) -> NodeId
    ensures { result ≡ carried.now.others }
{
    carried.others
}

/// Whether a community outside the universe would be kept: a session on the set as if it had one.
fn kept_beyond(
    alloc: Global,
    store: &mut Store,
    out: &[PlainEntry],
    sends: bool,
    into: &[PlainEntry],
) -> Result<NodeId, NoMemory>
    requires out { AllByRecursion (IsEntryWithin store.old.universe) out.now }
    requires into { AllByRecursion (IsEntryWithin store.old.universe) into.now }
    ensures grows { Grows store.old store.new }
    ensures kept { IfOk result (λ node. Means store.new node (λ set. others_kept store.old.universe out.now sends into.now (has set) true)) }
{
    let always = store.constant(true);
    let crossing = cross(alloc, store, out, sends, into, always)?;
    let node = others_of(&crossing.end);
    Ok(node)
}

/// The function of a session: what is imported through the exporter's map `out`, the sending of
/// communities or not, and the importer's map `into`. The maps name only communities of the store's
/// universe. If memory runs out, the store may have more nodes.
///
/// The maps are crossed twice: on the set as it is, and as if it had a community outside the universe.
/// The second crossing tells whether such a community would be kept.
pub fn edge_fn(
    alloc: Global,
    store: &mut Store,
    out: &Plain,
    sends: bool,
    into: &Plain,
) -> Result<EdgeFn, NoMemory>
    requires out { IsMapWithin store.old.universe out.now }
    requires into { IsMapWithin store.old.universe into.now }
    ensures grows { Grows store.old store.new }
    ensures edge { IfOk result (λ edge. IsEdgeFn store.new edge (import_of out.now sends into.now)) }
{
    let outgoing = out.entries.as_slice();
    let incoming = into.entries.as_slice();
    read_changes(outgoing);
    read_changes(incoming);
    let others = store.others()?;
    let seen = cross(alloc, store, outgoing, sends, incoming, others)?;
    let beyond = kept_beyond(alloc, store, outgoing, sends, incoming)?;
    let edge = joined(alloc, store, &seen, beyond)?;
    Ok(edge)
}
