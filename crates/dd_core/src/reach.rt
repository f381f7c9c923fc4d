//! The nodes below a node, and what they ask for.

ghost use Rattle.std.specs.Prelude.{◌≡◌, ◌<◌, ◌≤◌, Bool, false, Some, length, slice_get, IfOk, ℕ};
ghost use Rattle.std.specs.List.{slice_index_or};
ghost use Rattle.dd_core.specs.declared.table.Node.TheVariants.{Constant, Choice};
ghost use Rattle.dd_core.specs.Store.{IsStore, IsWithin};
ghost use Rattle.dd_core.specs.Marks.{AreMarks, MarksSons, is_marked_choice, choices_before, AreUsedVariables, MarksVariable, picked};

use crate::table::{Node, Table};
use base_kit::{NoMemory, NumSet};
use std::alloc::Global;

/// Which nodes are reached from this one by sons, itself included. Sons stand before their node, so
/// one pass down marks them all.
pub fn reached(alloc: Global, table: &Table, from: usize) -> Result<Vec<bool>, NoMemory>
    requires store { IsStore table.now }
    requires inside { from < length table.now }
    ensures { IfOk result (λ marks. AreMarks table.now from marks.items) }
{
    let _known = table.len();
    let mut marks = vec![in alloc; false; from + 1]?;
    marks[from] = true;
    let mut place = from + 1;
    while place > 0 {
        place -= 1;
        mark_sons(table, &mut marks, place);
    }
    Ok(marks)
}

/// Marks the sons of a marked node.
fn mark_sons(table: &Table, marks: &mut [bool], place: usize)
    requires store { IsStore table.now }
    requires inside { place < length marks.old }
    requires within { length marks.old ≤ length table.now }
    ensures { MarksSons table.now marks.old marks.new place }
{
    if !marks[place] {
        return;
    }
    if let Node::Choice { high, low, .. } = table.node(place) {
        marks[high] = true;
        marks[low] = true;
    }
}

fn is_marked_choice(table: &Table, marks: &[bool], place: usize) -> bool
    requires inside { place < length marks.now }
    requires within { length marks.now ≤ length table.now }
    ensures { result ≡ is_marked_choice table.now marks.now place }
{
    if !marks[place] {
        return false;
    }
    matches!(table.node(place), Node::Choice { .. })
}

/// The number of marked nodes, constants left out.
pub fn count_choices(table: &Table, marks: &[bool]) -> usize
    requires { length marks.now ≤ length table.now }
    ensures { result ≡ length (choices_before table.now marks.now (length marks.now)) }
{
    let mut count = 0;
    for place in 0..marks.len() {
        if is_marked_choice(table, marks, place) {
            count += 1;
        }
    }
    count
}

/// Marks the variable of a node.
fn mark_variable(table: &Table, used: &mut [bool], place: usize)
    requires inside { place < length table.now }
    requires within { (variable high low : ℕ) → slice_get table.now place ≡ Some (Choice variable high low) → variable < length used.old }
    ensures { MarksVariable table.now used.old used.new place }
{
    if let Node::Choice { variable, .. } = table.node(place) {
        used[variable] = true;
    }
}

/// Which variables the nodes ask for that are reached from this one.
pub fn used_variables(
    alloc: Global,
    table: &Table,
    universe: &NumSet,
    from: usize,
) -> Result<Vec<bool>, NoMemory>
    requires store { IsStore table.now }
    requires inside { from < length table.now }
    requires within { IsWithin table.now (length universe.now) }
    ensures { IfOk result (λ used. AreUsedVariables table.now from (length universe.now) used.items) }
{
    let marks = reached(alloc, table, from)?;
    let mut used = vec![in alloc; false; universe.as_slice().len() + 1]?;
    for (place, marked) in marks.iter().enumerate() {
        if *marked {
            mark_variable(table, &mut used, place);
        }
    }
    Ok(used)
}

/// The communities whose variables are marked.
pub fn marked_communities(
    alloc: Global,
    universe: &NumSet,
    used: &[bool],
) -> Result<NumSet, NoMemory>
    requires { length universe.now < length used.now }
    ensures { IfOk result (λ s. s ≡ picked used.now 0 universe.now) }
{
    let mut communities = Vec::new(alloc);
    for (place, community) in universe.as_slice().iter().enumerate() {
        if used[place] {
            communities.push(*community)?;
        }
    }
    Ok(NumSet::from_ascending(alloc, communities))
}
