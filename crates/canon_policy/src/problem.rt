//! The problem with canonical acts.

ghost use Rattle.std.specs.Prelude.{◌≡◌, ◌<◌, ◌+◌, IfOk, OnOk, length, take};
ghost use Rattle.std.specs.List.{AllByRecursion};
ghost use Rattle.dd_core.specs.Sets.{Grows};
ghost use Rattle.srp_core.specs.Alike.{ProblemsAlike};
ghost use Rattle.canon_policy.specs.declared.problem.CanonSrpRefusal.TheVariants as canon_srp_refusal;
ghost use Rattle.canon_policy.specs.CanonicalProblem.{IsCanonicalOr, AreCommunities};
ghost use Rattle.srp_core.specs.ActMaps.{IsPrintableAct, IsActWithin};
ghost use Rattle.canon_policy.specs.MadeActs.{IsActFor, IsCanonicalActOr, AreCanonicalActsOr, AreActsSoFar, IsRefusedAtFirst, at_place};

use crate::canonical::canon;
use crate::lists::CanonRefusal;
use base_kit::{List, NoMemory};
use dd_core::Store;
use policy_dd::edge_fn;
use srp_core::{Act, Route, Srp, acts_copy, names_copy};
use std::alloc::{AllocError, Global};
use thiserror::Error;

/// Why there is no problem with canonical acts to give.
#[derive(Clone, Copy, Debug, PartialEq, Eq, Error)]
pub enum CanonSrpRefusal {
    /// The edge at this place is the first whose act has no canonical lists.
    #[error("edge {0}: its act has no canonical lists")]
    NoCanon(u32),
    /// Memory ran out.
    #[error("out of memory")]
    Memory,
}

impl From<NoMemory> for CanonSrpRefusal {
    ghost from_gives = { λ _ e. e ≡ canon_srp_refusal.Memory };

    fn from(_: NoMemory) -> Self {
        CanonSrpRefusal::Memory
    }
}

impl From<AllocError> for CanonSrpRefusal {
    ghost from_gives = { λ _ e. e ≡ canon_srp_refusal.Memory };

    fn from(_: AllocError) -> Self {
        CanonSrpRefusal::Memory
    }
}

/// The problem with canonical acts: what each edge imports stays as it is, and is written by the canonical
/// lists of its function, with communities sent. Costs stay, and so do acts that no edge has.
///
/// # Errors
/// The place of the first edge whose act has no canonical lists, or out of memory. In both cases the
/// store may have more nodes.
pub fn canon_srp(alloc: Global, srp: &Srp, store: &mut Store) -> Result<Srp, CanonSrpRefusal>
    requires communities { AreCommunities store.old.universe }
    requires printable { AllByRecursion IsPrintableAct srp.now.acts }
    requires within { AllByRecursion (IsActWithin store.old.universe) srp.now.acts }
    ensures grows { Grows store.old store.new }
    ensures canonical { IsCanonicalOr store.old.universe srp.now result }
    ensures alike { IfOk result (λ new. ProblemsAlike srp.now new) }
    ensures printable { IfOk result (λ new. AllByRecursion IsPrintableAct new.acts) }
    ensures within { IfOk result (λ new. AllByRecursion (IsActWithin store.old.universe) new.acts) }
{
    let _known = srp.count();
    let acts = canonical_acts(alloc, srp, store)?;
    let names = names_copy(alloc, srp.names().as_slice())?;
    let numbers = Vec::from_slice(alloc, srp.numbers())?;
    let init = starts_copy(alloc, srp.init())?;
    let lone = Vec::from_slice(alloc, srp.lone())?;
    let edges = Vec::from_slice(alloc, srp.edges())?;
    Ok(Srp::new(
        alloc,
        srp.protocol(),
        names,
        List::from_vec(numbers),
        init,
        List::from_vec(lone),
        acts,
        List::from_vec(edges),
    ))
}

// The canonical act of an act, if it has one.
fn canonical_act(alloc: Global, store: &mut Store, act: &Act) -> Result<Act, CanonRefusal>
    requires communities { AreCommunities store.old.universe }
    requires printable { IsPrintableAct act.now }
    requires within { IsActWithin store.old.universe act.now }
    ensures grows { Grows store.old store.new }
    ensures canonical { IsCanonicalActOr store.old.universe act.now result }
    ensures instead { IfOk result (λ new. IsActFor store.old.universe act.now new) }
{
    match act {
        Act::Import { out, sends, into } => {
            let function = edge_fn(alloc, store, out, *sends, into)?;
            match canon(alloc, store, &function) {
                Err(refusal) => Err(refusal),
                Ok(lists) => Ok(Act::Import {
                    out: lists.out,
                    sends: true,
                    into: lists.into,
                }),
            }
        }
        Act::Cost(cost) => Ok(Act::Cost(*cost)),
    }
}

fn at_place(refusal: CanonRefusal, place: u32) -> CanonSrpRefusal
    ensures { result ≡ at_place refusal place }
{
    match refusal {
        CanonRefusal::NoCanon => CanonSrpRefusal::NoCanon(place),
        CanonRefusal::Memory => CanonSrpRefusal::Memory,
    }
}

// Makes the act of the edge at this place canonical, unless an edge before it has the act.
fn make_act(
    alloc: Global,
    srp: &Srp,
    store: &mut Store,
    made: &mut Vec<Act>,
    done: &mut Vec<bool>,
    place: usize,
) -> Result<(), CanonSrpRefusal>
    requires communities { AreCommunities store.old.universe }
    requires printable { AllByRecursion IsPrintableAct srp.now.acts }
    requires within { AllByRecursion (IsActWithin store.old.universe) srp.now.acts }
    requires place { place < length srp.now.edges }
    requires so_far { AreActsSoFar store.old.universe srp.now (take place srp.now.edges) made.old.items done.old.items }
    ensures grows { Grows store.old store.new }
    ensures so_far { OnOk result (AreActsSoFar store.old.universe srp.now (take (place + 1) srp.now.edges) made.new.items done.new.items) }
    ensures refused { IsRefusedAtFirst store.old.universe srp.now result }
{
    let _known = srp.count();
    let act = srp.edges()[place].act as usize;
    if done[act] {
        return Ok(());
    }
    match canonical_act(alloc, store, &srp.acts()[act]) {
        Err(refusal) => Err(at_place(refusal, place as u32)),
        Ok(canonical) => {
            made[act] = canonical;
            done[act] = true;
            Ok(())
        }
    }
}

// The acts, those that some edge has made canonical.
fn canonical_acts(alloc: Global, srp: &Srp, store: &mut Store) -> Result<List<Act>, CanonSrpRefusal>
    requires communities { AreCommunities store.old.universe }
    requires printable { AllByRecursion IsPrintableAct srp.now.acts }
    requires within { AllByRecursion (IsActWithin store.old.universe) srp.now.acts }
    ensures grows { Grows store.old store.new }
    ensures acts { AreCanonicalActsOr store.old.universe srp.now result }
{
    let _known = srp.count();
    let mut made = acts_copy(alloc, srp.acts())?.into_vec();
    let mut done = vec![in alloc; false; srp.acts().len()]?;
    for place in 0..srp.edges().len() {
        make_act(alloc, srp, store, &mut made, &mut done, place)?;
    }
    Ok(List::from_vec(made))
}

fn start_copy(alloc: Global, start: &Option<Route>) -> Result<Option<Route>, NoMemory>
    ensures { IfOk result (λ copy. copy ≡ start.now) }
{
    match start {
        Some(route) => Ok(Some(route.copy(alloc)?)),
        None => Ok(None),
    }
}

fn starts_copy(alloc: Global, starts: &[Option<Route>]) -> Result<List<Option<Route>>, NoMemory>
    ensures { IfOk result (λ copies. copies ≡ starts.now) }
{
    let mut copies = List::new(alloc);
    for start in starts {
        copies.push(start_copy(alloc, start)?)?;
    }
    Ok(copies)
}
