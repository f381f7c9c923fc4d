//! Acts of sessions, found by what they import.

ghost use Rattle.std.specs.Prelude.{◌≡◌, ◌<◌, ◌^◌, [], ◌∷◌, ◌++◌, true, false, None, Some, IfOk, OnOk, IfSome, Contains, length, slice_get, flat_map};
ghost use Rattle.std.specs.BTreeMap.{get};
ghost use Rattle.srp_build.specs.BgpActs.{case_numbers, community_numbers, function_key, function_order, numbers_under, with_number_noted, AreTwoImports, IsLike, AreUnlike, AreFoundByFunction, IsActOfFunction, IsNumberFor};
ghost use Rattle.srp_build.specs.BgpActs.{FunctionKey as Key};

use crate::hops::Hop;
use crate::imports::ImportByMaps;
use base_kit::{Community, List, NoMemory};
use dd_core::{NodeId, Store};
use policy_dd::laws::one_form;
use policy_dd::{EdgeFn, accepts_some, same};
use std::alloc::Global;
use std::collections::BTreeMap;

/// What an act is found by: all of its function, in numbers, whatever preferences and communities a text
/// chooses.
pub type FunctionKey = Vec<usize>;

/// The numbers of the acts with each key, in order.
pub type ActsByKey = BTreeMap<FunctionKey, List<u32>>;

/// An act of sessions: the first direction that has it, the import there, and the function that all
/// directions with this act have.
#[derive(Drop)]
pub struct BgpAct {
    pub first: Hop,
    pub import: ImportByMaps,
    pub function: EdgeFn,
}

/// Acts of sessions, each of which is found by its function.
#[derive(Drop)]
pub struct Acts {
    pub acts: Vec<BgpAct>,
    pub by_function: ActsByKey,
}

// Whether the act with the number has a function like this one.
fn is_like(store: &Store, acts: &[BgpAct], function: &EdgeFn, number: u32) -> bool
    ensures like { result ≡ true → IsLike store.now acts.now function.now number }
    ensures unlike { result ≡ false → (act : BgpAct) → slice_get acts.now number ≡ Some act → AreTwoImports store.now function.now act.function }
{
    match acts.get(number as usize) {
        Some(act) => same(store, function, &act.function),
        None => false,
    }
}

// The first of the numbers whose act has a function like this one.
fn like_among(store: &Store, acts: &[BgpAct], numbers: &[u32], function: &EdgeFn) -> Option<u32>
    ensures found { IfSome result (IsLike store.now acts.now function.now) }
    ensures none { result ≡ None → AreUnlike store.now acts.now numbers.now function.now }
{
    for number in numbers {
        if is_like(store, acts, function, *number) {
            return Some(*number);
        }
    }
    None
}

fn push_case(numbers: &mut List<usize>, key: usize, node: NodeId) -> Result<(), NoMemory>
    ensures { OnOk result (numbers.new ≡ numbers.old ++ case_numbers (key, node)) }
{
    numbers.push(key)?;
    numbers.push(node.place())
}

fn push_preferences(numbers: &mut List<usize>, lps: &[(u32, NodeId)]) -> Result<(), NoMemory>
    ensures { OnOk result (numbers.new ≡ numbers.old ++ flat_map case_numbers lps.now) }
{
    for case in lps {
        push_case(numbers, case.0 as usize, case.1)?;
    }
    Ok(())
}

fn push_counts(numbers: &mut List<usize>, adds: &[(u8, NodeId)]) -> Result<(), NoMemory>
    ensures { OnOk result (numbers.new ≡ numbers.old ++ flat_map case_numbers adds.now) }
{
    for case in adds {
        push_case(numbers, case.0 as usize, case.1)?;
    }
    Ok(())
}

fn push_communities(numbers: &mut List<usize>, outs: &[(Community, NodeId)]) -> Result<(), NoMemory>
    ensures { OnOk result (numbers.new ≡ numbers.old ++ flat_map community_numbers outs.now) }
{
    for case in outs {
        push_case(numbers, case.0.0 as usize, case.1)?;
    }
    Ok(())
}

// The lengths of two tables stand before the cases, so the numbers tell where each table ends.
fn key_of(alloc: Global, function: &EdgeFn) -> Result<FunctionKey, NoMemory>
    ensures { IfOk result (λ key. key.items ≡ function_key function.now) }
{
    let mut numbers = List::new(alloc);
    numbers.push(function.permit.place())?;
    numbers.push(function.rest.place())?;
    numbers.push(function.lps.len())?;
    numbers.push(function.adds.len())?;
    push_preferences(&mut numbers, function.lps.as_slice())?;
    push_counts(&mut numbers, function.adds.as_slice())?;
    push_communities(&mut numbers, function.outs.as_slice())?;
    Ok(numbers.into_vec())
}

// The numbers of the acts with this key.
fn numbers_under<'a>(index: &'a ActsByKey, key: &FunctionKey) -> &'a [u32]
    ensures { result.now ≡ numbers_under index.now key.now }
{
    match index.get(key) {
        Some(numbers) => numbers.as_slice(),
        None => &[],
    }
}

// Puts the number of an act last under its key.
fn note(alloc: Global, index: &mut ActsByKey, key: FunctionKey, number: u32) -> Result<(), NoMemory>
    ensures { OnOk result ((q : Key) → get function_order index.new q ≡ with_number_noted key number q (get function_order index.old q)) }
{
    let numbers = index.entry(key)?.or_insert(List::new(alloc));
    numbers.push(number)?;
    Ok(())
}

fn number_of(place: usize) -> u32
    requires { place < 2 ^ 32 }
    ensures { result ≡ place }
{
    place as u32
}

impl Acts {
    /// No acts yet.
    pub fn new(alloc: Global) -> Self
        ensures { result.acts.items ≡ [] }
    {
        Acts {
            acts: Vec::new(alloc),
            by_function: BTreeMap::new(alloc),
        }
    }

    // The number of the act with this function, which is put last unless one like it is there.
    fn number(
        &mut self,
        alloc: Global,
        store: &Store,
        hop: &Hop,
        import: &ImportByMaps,
        function: EdgeFn,
    ) -> Result<u32, NoMemory>
        requires listed { AreFoundByFunction self.old.by_function self.old.acts.items }
        requires few { length self.old.acts.items < 2 ^ 32 }
        ensures listed { OnOk result (AreFoundByFunction self.new.by_function self.new.acts.items) }
        ensures number { IfOk result (IsNumberFor store.now self.old.acts.items self.new.acts.items hop.now import.now function) }
    {
        one_form();
        let _known = store.len();
        let key = key_of(alloc, &function)?;
        let numbers = numbers_under(&self.by_function, &key);
        if let Some(number) = like_among(store, &self.acts, numbers, &function) {
            return Ok(number);
        }
        let number = number_of(self.acts.len());
        self.acts.push(BgpAct {
            first: *hop,
            import: *import,
            function,
        })?;
        note(alloc, &mut self.by_function, key, number)?;
        Ok(number)
    }

    /// The number of the act of an import with this function; none if it accepts nothing. If no act that
    /// imports alike is there, the act is put last, and the direction is the first that has it.
    pub fn act_of_function(
        &mut self,
        alloc: Global,
        store: &Store,
        hop: &Hop,
        import: &ImportByMaps,
        function: EdgeFn,
    ) -> Result<Option<u32>, NoMemory>
        requires listed { AreFoundByFunction self.old.by_function self.old.acts.items }
        requires few { length self.old.acts.items < 2 ^ 32 }
        ensures listed { OnOk result (AreFoundByFunction self.new.by_function self.new.acts.items) }
        ensures act { IfOk result (IsActOfFunction store.now self.old.acts.items self.new.acts.items hop.now import.now function) }
    {
        if !accepts_some(store, &function) {
            return Ok(None);
        }
        let number = self.number(alloc, store, hop, import, function)?;
        Ok(Some(number))
    }
}
