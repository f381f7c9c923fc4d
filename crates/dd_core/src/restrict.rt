//! A diagram with some communities fixed.

ghost use Rattle.std.specs.Prelude.{◌≡◌, ◌<◌, length, nat_lt, IfOk, true, ℕ};
ghost use Rattle.std.specs.List.{list_all};
ghost use Rattle.dd_core.specs.Store.{IsStore, Extends, IsWithin};
ghost use Rattle.dd_core.specs.Restrict.{fixed, IsRestricted, AreSonsRestricted};
ghost use Rattle.dd_core.specs.Fixed.{LeadsTo, IsUnfixed};

use crate::build::choice;
use crate::reach::reached;
use crate::table::{Node, Table};
use crate::variables::fixed;
use base_kit::{NoMemory, NumSet};
use std::alloc::Global;

/// The diagram of a marked place, given those of its sons.
fn restricted_place(
    table: &mut Table,
    universe: &NumSet,
    present: &NumSet,
    absent: &NumSet,
    made: &[usize],
    marked: bool,
    place: usize,
) -> Result<usize, NoMemory>
    requires store { IsStore table.old }
    requires inside { place < length table.old }
    requires sons { marked ≡ true → AreSonsRestricted table.old (fixed universe.now present.now absent.now) made.now place }
    ensures store { IsStore table.new }
    ensures extends { Extends table.old table.new }
    ensures within { (bound : ℕ) → IsWithin table.old bound → IsWithin table.new bound }
    ensures made { IfOk result (λ node. marked ≡ true → IsRestricted table.new (fixed universe.now present.now absent.now) place node) }
{
    if !marked {
        return Ok(0);
    }
    match table.node(place) {
        Node::Constant(_) => Ok(place),
        Node::Choice {
            variable,
            high,
            low,
        } => match fixed(universe, present, absent, variable) {
            Some(true) => Ok(made[high]),
            Some(false) => Ok(made[low]),
            None => {
                let node = choice(table, variable, made[high], made[low])?;
                Ok(node)
            }
        },
    }
}

/// The diagram of a node below which some variables are fixed. Sons stand before their node, so one
/// pass up makes it.
fn restricted_below(
    alloc: Global,
    table: &mut Table,
    universe: &NumSet,
    present: &NumSet,
    absent: &NumSet,
    from: usize,
) -> Result<usize, NoMemory>
    requires store { IsStore table.old }
    requires inside { from < length table.old }
    ensures store { IsStore table.new }
    ensures extends { Extends table.old table.new }
    ensures within { (bound : ℕ) → IsWithin table.old bound → IsWithin table.new bound }
    ensures restricted { IfOk result (IsRestricted table.new (fixed universe.now present.now absent.now) from) }
{
    let marks = reached(alloc, table, from)?;
    let mut made = Vec::new(alloc);
    for (place, marked) in marks.iter().enumerate() {
        let node = restricted_place(table, universe, present, absent, &made, *marked, place)?;
        made.push(node)?;
    }
    Ok(made[from])
}

/// The node that is reached while the variable of the node is fixed.
fn after_fixed(
    table: &Table,
    universe: &NumSet,
    present: &NumSet,
    absent: &NumSet,
    from: usize,
) -> usize
    requires store { IsStore table.now }
    requires inside { from < length table.now }
    ensures { LeadsTo table.now (fixed universe.now present.now absent.now) from result }
{
    let mut place = from;
    loop {
        match table.node(place) {
            Node::Constant(_) => return place,
            Node::Choice {
                variable,
                high,
                low,
            } => match fixed(universe, present, absent, variable) {
                Some(true) => place = high,
                Some(false) => place = low,
                None => return place,
            },
        }
    }
}

/// Whether all of them come before this one.
fn all_before(set: &NumSet, community: u32) -> bool
    ensures { result ≡ list_all (λ c. nat_lt c community) set.now }
{
    set.as_slice().iter().all(|c| *c < community)
}

/// Whether the fixed communities all come before the first on which the node depends.
fn is_unfixed(
    table: &Table,
    universe: &NumSet,
    present: &NumSet,
    absent: &NumSet,
    place: usize,
) -> bool
    requires inside { place < length table.now }
    ensures { result ≡ true → IsUnfixed table.now (fixed universe.now present.now absent.now) place }
{
    match table.node(place) {
        Node::Constant(_) => true,
        Node::Choice { variable, .. } => {
            let communities = universe.as_slice();
            if variable >= communities.len() {
                return true;
            }
            let first = communities[variable];
            if !all_before(present, first) {
                return false;
            }
            all_before(absent, first)
        }
    }
}

/// The diagram with the communities of `present` put in and those of `absent` taken out. Where all
/// of them come before those on which the value depends, a way down leads to it.
pub fn restricted_node(
    alloc: Global,
    table: &mut Table,
    universe: &NumSet,
    present: &NumSet,
    absent: &NumSet,
    from: usize,
) -> Result<usize, NoMemory>
    requires store { IsStore table.old }
    requires inside { from < length table.old }
    ensures store { IsStore table.new }
    ensures extends { Extends table.old table.new }
    ensures within { (bound : ℕ) → IsWithin table.old bound → IsWithin table.new bound }
    ensures restricted { IfOk result (IsRestricted table.new (fixed universe.now present.now absent.now) from) }
{
    let place = after_fixed(table, universe, present, absent, from);
    if is_unfixed(table, universe, present, absent, place) {
        return Ok(place);
    }
    let node = restricted_below(alloc, table, universe, present, absent, place)?;
    Ok(node)
}
