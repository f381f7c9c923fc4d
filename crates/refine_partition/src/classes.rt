//! Routers in classes by the acts of their edges into one block.

ghost use Rattle.std.specs.Prelude.{◌≡◌, ℕ, ◌<◌, ◌≤◌, ◌+◌, ◌^◌, All, IfOk, IfSome, OnOk, Some, length, slice_index_or};
ghost use Rattle.std.specs.List.Sorted.{IsNonDecreasingBy};
ghost use Rattle.refine_partition.specs.ClassNames.{class_name};
ghost use Rattle.refine_partition.specs.Arrivals.{act_of_import};
ghost use Rattle.refine_partition.specs.Classes.{IsNamed, IsNoted, IsSeparated, AreClasses, AreReached};
ghost use Rattle.refine_partition.specs.declared.imports.Import.{Import as AnImport};

use crate::class_names::ClassNames;
use crate::imports::Import;
use base_kit::NoMemory;
use std::alloc::Global;

/// The name of the class, which is the next one where the class has none yet.
fn name_of(names: &mut ClassNames<usize>, class: usize, next: usize) -> Result<usize, NoMemory>
    ensures { IfOk result (λ name. IsNamed names.old names.new class next name) }
{
    if let Some(name) = names.name(class) {
        return Ok(name);
    }
    names.put(class, next)?;
    Ok(next)
}

/// The name of the class, which needs no look-up where it is the last one that had one.
fn name_after(
    names: &mut ClassNames<usize>,
    last: Option<(usize, usize)>,
    class: usize,
    next: usize,
) -> Result<usize, NoMemory>
    requires last { IfSome last (λ l. class_name names.old l.0 ≡ Some l.1) }
    ensures { IfOk result (λ name. IsNamed names.old names.new class next name) }
{
    match last {
        Some((known, name)) if known == class => Ok(name),
        _ => name_of(names, class, next),
    }
}

/// Adds the router where its class is one of the first.
fn note(reached: &mut Vec<u32>, router: u32, class: usize, count: usize) -> Result<(), NoMemory>
    ensures { OnOk result (IsNoted reached.old.items reached.new.items router class count) }
{
    if class < count {
        reached.push(router)?;
    }
    Ok(())
}

/// Moves the importers out of their classes, those of one class into one fresh class, adds those that were
/// in one of the first classes, and gives the first number above all classes.
fn separate(
    classes: &mut Vec<usize>,
    reached: &mut Vec<u32>,
    names: &mut ClassNames<usize>,
    count: usize,
    movers: &[Import],
    fresh: usize,
) -> Result<usize, NoMemory>
    requires in_range { All (λ m. m.importer < length classes.old.items) movers.now }
    requires below { All (λ class. class < fresh) classes.old.items }
    requires fits { fresh + length movers.now < 2 ^ 64 }
    requires first { count ≤ fresh }
    requires reached { AreReached classes.old.items count reached.old.items }
    ensures separated { IfOk result (λ next. IsSeparated classes.old.items classes.new.items movers.now fresh next) }
    ensures reached { IfOk result (λ next. AreReached classes.new.items count reached.new.items) }
{
    names.clear();
    let mut next = fresh;
    let mut last = None;
    for mover in movers {
        let class = classes[mover.importer as usize];
        if class < fresh {
            note(reached, mover.importer, class, count)?;
            let name = name_after(names, last, class, next)?;
            classes[mover.importer as usize] = name;
            next = next.max(name + 1);
            last = Some((class, name));
        }
    }
    Ok(next)
}

/// The end of the edges that act as the one at `start` does.
fn run_end(arrivals: &[Import], start: usize) -> usize
    requires inside { start < length arrivals.now }
    requires in_order { IsNonDecreasingBy act_of_import arrivals.now }
    ensures more { start < result }
    ensures within { result ≤ length arrivals.now }
    ensures same { (i : ℕ) (d : AnImport) → start ≤ i → i < result → act_of_import (slice_index_or arrivals.now i d) ≡ act_of_import (slice_index_or arrivals.now start d) }
    ensures after { (j : ℕ) (d : AnImport) → result ≤ j → j < length arrivals.now → act_of_import (slice_index_or arrivals.now start d) < act_of_import (slice_index_or arrivals.now j d) }
{
    let act = arrivals[start].act;
    let last = arrivals[arrivals.len() - 1].act;
    if last == act {
        return arrivals.len();
    }
    let mut end = start + 1;
    while end < arrivals.len() && arrivals[end].act == act {
        end += 1;
    }
    end
}

/// The numbers, wide enough for the names of classes.
pub fn widened(alloc: Global, numbers: &[u32]) -> Result<Vec<usize>, NoMemory>
    ensures { IfOk result (λ classes. classes.items ≡ numbers.now) }
{
    let mut classes = vec![in alloc; 0; numbers.len()]?;
    for router in 0..numbers.len() {
        classes[router] = numbers[router] as usize;
    }
    Ok(classes)
}

/// Divides the classes by the acts of their routers' edges, fills the list with the routers that have new
/// ones, and gives the first number above all classes: two routers are then in one class where they were
/// and their edges have the same acts.
pub fn divide_classes(
    classes: &mut Vec<usize>,
    reached: &mut Vec<u32>,
    names: &mut ClassNames<usize>,
    arrivals: &[Import],
    count: u32,
) -> Result<usize, NoMemory>
    requires below { All (λ class. class < count) classes.old.items }
    requires in_range { All (λ a. a.importer < length classes.old.items) arrivals.now }
    requires in_order { IsNonDecreasingBy act_of_import arrivals.now }
    ensures classes { IfOk result (λ next. AreClasses classes.old.items arrivals.now count classes.new.items next) }
    ensures reached { IfOk result (λ next. AreReached classes.new.items count reached.new.items) }
{
    reached.clear();
    let mut next = count as usize;
    let mut start = 0;
    while start < arrivals.len() {
        let end = run_end(arrivals, start);
        let run = &arrivals[start..end];
        next = separate(classes, reached, names, count as usize, run, next)?;
        start = end;
    }
    Ok(next)
}
