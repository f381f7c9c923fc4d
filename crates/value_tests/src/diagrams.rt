//! Diagrams over two communities, value by value.

ghost use Rattle.std.specs.Prelude.{◌≤◌, ◌<◌, length, IfSome};

use base_kit::{Community, NumSet};
use dd_core::{NodeId, Store};
use std::alloc::Global;
use std::test::Fail;

// What a store with the universe {1, 2} answers.
#[derive(Clone, Copy)]
struct Answers {
    is_remembered: bool,
    opposites_cancel: bool,
    opposites_of_one_cancel: bool,
    has_one: bool,
    has_two: bool,
    size: usize,
    on_one_and_two: bool,
    on_one: bool,
}

fn set_of_two(alloc: Global, first: u32, second: u32) -> Option<NumSet> {
    let mut set = NumSet::new(alloc);
    set.add(first).ok()?;
    set.add(second).ok()?;
    Some(set)
}

fn store_of_two(alloc: Global, capacity: usize) -> Option<Store>
    requires { 1 ≤ capacity }
{
    let universe = set_of_two(alloc, 1, 2)?;
    Store::with_capacity(alloc, &universe, capacity).ok()
}

fn known(store: &Store, a: NodeId) -> Option<NodeId>
    ensures { IfSome result (λ node. node < length store.now.nodes) }
{
    if a.place() < store.len() {
        return Some(a);
    }
    None
}

fn var(store: &mut Store, community: u32) -> Option<NodeId> {
    if store.universe().has(community) {
        return store.var(Community(community)).ok();
    }
    None
}

fn not(store: &mut Store, a: NodeId) -> Option<NodeId> {
    let a = known(store, a)?;
    store.not(a).ok()
}

fn and(store: &mut Store, a: NodeId, b: NodeId) -> Option<NodeId> {
    let a = known(store, a)?;
    let b = known(store, b)?;
    store.and(a, b).ok()
}

fn or(store: &mut Store, a: NodeId, b: NodeId) -> Option<NodeId> {
    let a = known(store, a)?;
    let b = known(store, b)?;
    store.or(a, b).ok()
}

fn ite(store: &mut Store, a: NodeId, b: NodeId, c: NodeId) -> Option<NodeId> {
    let a = known(store, a)?;
    let b = known(store, b)?;
    let c = known(store, c)?;
    store.ite(a, b, c).ok()
}

fn conjunction(store: &mut Store) -> Option<NodeId> {
    let one = var(store, 1)?;
    let two = var(store, 2)?;
    and(store, one, two)
}

// Whether `ite` gives the conjunction again, is remembered, and then adds no node.
fn is_remembered(store: &mut Store, both: NodeId) -> Option<bool> {
    let one = var(store, 1)?;
    let two = var(store, 2)?;
    let never = store.constant(false);
    let first = ite(store, one, two, never)?;
    let kept = store.remembered(one, two, never)?;
    let before = store.len();
    let again = ite(store, one, two, never)?;
    Some(first == both && kept == both && again == both && store.len() == before)
}

// Whether the diagram comes back from two negations, and gives constants with its negation.
fn opposites_cancel(store: &mut Store, a: NodeId) -> Option<bool> {
    let opposite = not(store, a)?;
    let back = not(store, opposite)?;
    let nothing = and(store, a, opposite)?;
    let all = or(store, a, opposite)?;
    Some(back == a && nothing == store.constant(false) && all == store.constant(true))
}

fn eval_on(alloc: Global, store: &Store, a: NodeId, other: u32) -> Option<bool> {
    let a = known(store, a)?;
    let set = set_of_two(alloc, 1, other)?;
    Some(store.eval(a, &set))
}

fn support_has(store: &Store, a: NodeId, community: u32) -> Option<bool> {
    let a = known(store, a)?;
    let support = store.support(a).ok()?;
    Some(support.has(community))
}

fn size(store: &Store, a: NodeId) -> Option<usize> {
    let a = known(store, a)?;
    store.size(a).ok()
}

fn needs_others(store: &Store, a: NodeId) -> Option<bool> {
    let a = known(store, a)?;
    store.needs_others(a).ok()
}

fn ask(alloc: Global, store: &mut Store) -> Option<Answers> {
    let one = var(store, 1)?;
    let both = conjunction(store)?;
    Some(Answers {
        is_remembered: is_remembered(store, both)?,
        opposites_cancel: opposites_cancel(store, both)?,
        opposites_of_one_cancel: opposites_cancel(store, one)?,
        has_one: support_has(store, both, 1)?,
        has_two: support_has(store, both, 2)?,
        size: size(store, both)?,
        on_one_and_two: eval_on(alloc, store, both, 2)?,
        on_one: eval_on(alloc, store, both, 1)?,
    })
}

fn answers_of_two(alloc: Global, capacity: usize) -> Option<Answers>
    requires { 1 ≤ capacity }
{
    let mut store = store_of_two(alloc, capacity)?;
    ask(alloc, &mut store)
}

fn others_need_others(alloc: Global) -> Option<bool> {
    let universe = set_of_two(alloc, 1, 2)?;
    let mut store = Store::new(alloc, &universe).ok()?;
    let others = store.others().ok()?;
    needs_others(&store, others)
}

// The node on the sets with all communities of the universe.
fn with_all(alloc: Global, store: &mut Store, a: NodeId) -> Option<NodeId> {
    let all = store.universe().copy().ok()?;
    let none = NumSet::new(alloc);
    let a = known(store, a)?;
    store.restrict(a, &all, &none).ok()
}

// The node on the sets with none of them.
fn with_none(alloc: Global, store: &mut Store, a: NodeId) -> Option<NodeId> {
    let all = store.universe().copy().ok()?;
    let none = NumSet::new(alloc);
    let a = known(store, a)?;
    store.restrict(a, &none, &all).ok()
}

fn first(store: &Store, a: NodeId) -> Option<Community> {
    let a = known(store, a)?;
    store.first(a)
}

fn restricts(alloc: Global) -> Option<bool> {
    let mut store = store_of_two(alloc, 16384)?;
    let both = conjunction(&mut store)?;
    let least = first(&store, both)?;
    let with_all = with_all(alloc, &mut store, both)?;
    let with_none = with_none(alloc, &mut store, both)?;
    Some(
        least == Community(1)
            && with_all == store.constant(true)
            && with_none == store.constant(false)
            && first(&store, with_all).is_none(),
    )
}

fn are_right(answers: Answers) -> bool {
    answers.is_remembered
        && answers.opposites_cancel
        && answers.opposites_of_one_cancel
        && answers.has_one
        && answers.has_two
        && answers.size == 2
        && answers.on_one_and_two
        && !answers.on_one
}

#[test]
fn one_operation_is_remembered(rt: HostRuntime) -> Result<(), Fail> {
    let answers = answers_of_two(rt.alloc(), 1).ok_or("memory")?;
    assert!(rt; are_right(answers));
    Ok(())
}

#[test]
fn many_operations_are_remembered(rt: HostRuntime) -> Result<(), Fail> {
    let answers = answers_of_two(rt.alloc(), 16384).ok_or("memory")?;
    assert!(rt; are_right(answers));
    Ok(())
}

#[test]
fn others_are_needed(rt: HostRuntime) -> Result<(), Fail> {
    let needed = others_need_others(rt.alloc()).ok_or("memory")?;
    assert!(rt; needed);
    Ok(())
}

#[test]
fn sets_of_which_some_is_known_are_asked(rt: HostRuntime) -> Result<(), Fail> {
    let restricts = restricts(rt.alloc()).ok_or("memory")?;
    assert!(rt; restricts);
    Ok(())
}
