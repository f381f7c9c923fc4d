//! What a route map does.

ghost use Rattle.std.specs.Prelude.{◌≡◌, ◌<◌, ◌≤◌, [], length, IfOk, ◌&&◌, ◌||◌};
ghost use Rattle.std.specs.List.{AllByRecursion};
ghost use Rattle.base_kit.specs.Sets.{has};
ghost use Rattle.route_maps.specs.Within.{IsEntryWithin};
ghost use Rattle.dd_core.specs.Sets.{value_of, Grows, Means};
ghost use Rattle.policy_dd.specs.declared.matches.Carried.{Carried};
ghost use Rattle.policy_dd.specs.Deletion.{put_by_change};
ghost use Rattle.policy_dd.specs.MapRun.{AreMapInside, AreTablesAscending, IsEither, IsEntryTaken, IsPushed, IsMapFn};
ghost use Rattle.policy_dd.specs.Matches.{AreNodesInside};
ghost use Rattle.policy_dd.specs.Tables.{AllInside, IsTableGrown, IsMoreBy};

use crate::deletion::left_by;
use crate::either::or_unless;
use crate::matches::{Carried, entry_node, without};
use crate::tables::{or_all, or_into};
use base_kit::{List, NoMemory};
use cfg_ast::Change;
use dd_core::{NodeId, Store, is_same};
use route_maps::PlainEntry;
use std::alloc::Global;

/// What a route map does, by the set that a route began with. All nodes are of sets on which some entry
/// so far decides.
pub struct MapFn {
    /// Some entry holds.
    pub before: NodeId,
    /// The entry permits.
    pub permit: NodeId,
    /// It leaves the communities that no line names.
    pub rest: NodeId,
    /// The preferences that it gives.
    pub lps: List<(u32, NodeId)>,
    /// The counts of AS numbers that it puts before the path.
    pub adds: List<(u32, NodeId)>,
    /// The communities that it puts in.
    pub present: List<(u32, NodeId)>,
    /// The communities that it leaves where `rest` is false, or takes out where `rest` is true.
    pub odd: List<(u32, NodeId)>,
}

// One call where a map's function is dropped, in place of the drops of all its tables.
impl Drop for MapFn {
    fn drop(self) {
        let MapFn {
            before: _,
            permit: _,
            rest: _,
            lps: _lps,
            adds: _adds,
            present: _present,
            odd: _odd,
        } = self;
    }
}

fn or_if(store: &mut Store, a: NodeId, b: NodeId, wanted: bool) -> Result<NodeId, NoMemory>
    requires a_inside { a < length store.old.nodes }
    requires b_inside { b < length store.old.nodes }
    ensures grows { Grows store.old store.new }
    ensures or { IfOk result (λ node. Means store.new node (λ set. value_of store.old set a || (value_of store.old set b && wanted))) }
{
    if wanted {
        let node = store.or(a, b)?;
        Ok(node)
    } else {
        Ok(a)
    }
}

fn or_count(
    store: &mut Store,
    cases: List<(u32, NodeId)>,
    count: u8,
    node: NodeId,
) -> Result<List<(u32, NodeId)>, NoMemory>
    requires inside { AllInside store.old cases }
    requires node_inside { node < length store.old.nodes }
    ensures grows { Grows store.old store.new }
    ensures more { IfOk result (λ r. IsMoreBy store.old store.new cases r count node) }
    ensures small { count ≤ 255 }
{
    let more = or_into(store, cases, u32::from(count), node)?;
    Ok(more)
}

/// Puts or joins the node under the communities that a change puts in.
fn or_named(
    store: &mut Store,
    cases: List<(u32, NodeId)>,
    change: &Option<Change>,
    node: NodeId,
) -> Result<List<(u32, NodeId)>, NoMemory>
    requires inside { AllInside store.old cases }
    requires node_inside { node < length store.old.nodes }
    ensures grows { Grows store.old store.new }
    ensures more { IfOk result (λ r. IsTableGrown store.old store.new cases r (put_by_change change.now) (λ k set. has (put_by_change change.now) k && value_of store.old set node)) }
{
    match change {
        Some(Change::Replace(by)) => or_all(store, cases, by.as_slice(), node),
        Some(Change::Append(more)) => or_all(store, cases, more.as_slice(), node),
        Some(Change::Clear) => or_all(store, cases, &[], node),
        None => or_all(store, cases, &[], node),
    }
}

impl MapFn {
    /// What a permit entry adds where it decides.
    fn taken(
        self,
        alloc: Global,
        store: &mut Store,
        before: NodeId,
        decides: NodeId,
        entry: &PlainEntry,
    ) -> Result<MapFn, NoMemory>
        requires inside { AreMapInside store.old self }
        requires before_inside { before < length store.old.nodes }
        requires decides_inside { decides < length store.old.nodes }
        requires known { IsEntryWithin store.old.universe entry.now }
        ensures grows { Grows store.old store.new }
        ensures taken { IfOk result (λ r. IsEntryTaken store.old store.new self r before decides entry.now) }
    {
        let left = left_by(alloc, entry)?;
        let permit = store.or(self.permit, decides)?;
        let rest = or_if(store, self.rest, decides, left.all)?;
        let MapFn {
            before: _,
            permit: _,
            rest: _,
            lps,
            adds,
            present,
            odd,
        } = self;
        let lps = or_into(store, lps, entry.lp.unwrap_or(100), decides)?;
        let adds = or_count(store, adds, entry.adds, decides)?;
        let present = or_named(store, present, &entry.change, decides)?;
        let odd = or_all(store, odd, left.odd.as_slice(), decides)?;
        Ok(MapFn {
            before,
            permit,
            rest,
            lps,
            adds,
            present,
            odd,
        })
    }

    /// What a map does whose front part is this one and whose back part is `last`: this one decides if
    /// one of its entries holds, and otherwise `last`.
    pub fn either(self, store: &mut Store, last: &MapFn) -> Result<MapFn, NoMemory>
        requires first_inside { AreMapInside store.old self }
        requires last_inside { AreMapInside store.old last.now }
        requires ascending { AreTablesAscending last.now }
        ensures grows { Grows store.old store.new }
        ensures either { IfOk result (IsEither store.old store.new self last.now) }
    {
        let before = store.or(self.before, last.before)?;
        let permit = store.ite(self.before, self.permit, last.permit)?;
        let rest = store.ite(self.before, self.rest, last.rest)?;
        let MapFn {
            before: unless,
            permit: _,
            rest: _,
            lps,
            adds,
            present,
            odd,
        } = self;
        let lps = or_unless(store, lps, last.lps.as_slice(), unless)?;
        let adds = or_unless(store, adds, last.adds.as_slice(), unless)?;
        let present = or_unless(store, present, last.present.as_slice(), unless)?;
        let odd = or_unless(store, odd, last.odd.as_slice(), unless)?;
        Ok(MapFn {
            before,
            permit,
            rest,
            lps,
            adds,
            present,
            odd,
        })
    }
}

/// One more entry, which does nothing where it decides.
fn passed_over(m: MapFn, before: NodeId) -> MapFn
    ensures { result ≡ record m { before = before } }
{
    let mut m = m;
    m.before = before;
    m
}

/// One entry more. It does nothing where it denies, or where an earlier one always holds.
fn push_entry(
    alloc: Global,
    store: &mut Store,
    carried: &Carried,
    m: MapFn,
    entry: &PlainEntry,
) -> Result<MapFn, NoMemory>
    requires carried_inside { AreNodesInside store.old carried.now }
    requires inside { AreMapInside store.old m }
    requires known { IsEntryWithin store.old.universe entry.now }
    ensures grows { Grows store.old store.new }
    ensures pushed { IfOk result (λ r. IsPushed store.old store.new carried.now m r entry.now) }
{
    let here = entry_node(alloc, store, carried, entry)?;
    let decides = without(store, here, m.before)?;
    let before = store.or(m.before, here)?;
    if !entry.permit {
        return Ok(passed_over(m, before));
    }
    if is_same(store, decides, store.constant(false)) {
        return Ok(passed_over(m, before));
    }
    let pushed = m.taken(alloc, store, before, decides, entry)?;
    Ok(pushed)
}

/// What no entries do.
fn no_entries(alloc: Global, store: &Store) -> MapFn
    ensures { (carried : Carried) → IsMapFn store.now store.now carried [] result }
{
    let never = store.constant(false);
    MapFn {
        before: never,
        permit: never,
        rest: never,
        lps: List::new(alloc),
        adds: List::new(alloc),
        present: List::new(alloc),
        odd: List::new(alloc),
    }
}

/// What the entries of a map do to what is carried into it: the first that holds decides. Both halves
/// are run first, so that a large diagram is not made again for each entry.
pub fn run_map(
    alloc: Global,
    store: &mut Store,
    carried: &Carried,
    entries: &[PlainEntry],
) -> Result<MapFn, NoMemory>
    requires inside { AreNodesInside store.old carried.now }
    requires known { AllByRecursion (IsEntryWithin store.old.universe) entries.now }
    ensures grows { Grows store.old store.new }
    ensures run { IfOk result (IsMapFn store.old store.new carried.now entries.now) }
{
    match entries {
        [] => Ok(no_entries(alloc, store)),
        [entry] => {
            let none = no_entries(alloc, store);
            let m = push_entry(alloc, store, carried, none, entry)?;
            Ok(m)
        }
        _ => {
            let (front, back) = entries.split_at(entries.len() / 2);
            let first = run_map(alloc, store, carried, front)?;
            let last = run_map(alloc, store, carried, back)?;
            let m = first.either(store, &last)?;
            Ok(m)
        }
    }
}
