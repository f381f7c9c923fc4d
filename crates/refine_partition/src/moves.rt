//! Moving the routers that edges reach into the pieces of their classes.

ghost use Rattle.std.specs.Prelude.{◌≡◌, ℕ, ◌<◌, ◌+◌, ◌^◌, All, Contains, IfOk, IfSome, OnOk, Some, length, slice_index};
ghost use Rattle.std.specs.List.Sorted.{IsStrictlyIncreasing};
ghost use Rattle.refine_partition.specs.ClassNames.{class_name};
ghost use Rattle.refine_partition.specs.Classes.{AreNewClasses};
ghost use Rattle.refine_partition.specs.Loose.{AreListed, AreMoved, AreUsed, IsMoved, IsPieceOf};
ghost use Rattle.refine_partition.specs.Touched.{AreTouched};

use crate::class_names::ClassNames;
use crate::staying::{name_class, name_staying};
use base_kit::NoMemory;
use std::alloc::Global;

/// The numbers of classes, and for each new piece the block that it comes from.
#[derive(Drop)]
pub struct Pieces {
    pub names: ClassNames<u32>,
    pub origins: Vec<u32>,
}

impl Pieces {
    /// No class has a number.
    pub fn new(alloc: Global) -> Self {
        Pieces {
            names: ClassNames::new(alloc),
            origins: Vec::new(alloc),
        }
    }
}

/// The number of a class: that of a new, empty block where it has none yet.
fn piece_of(
    alloc: Global,
    names: &mut ClassNames<u32>,
    lists: &mut Vec<Vec<u32>>,
    origins: &mut Vec<u32>,
    class: usize,
    origin: u32,
) -> Result<u32, NoMemory>
    requires few { length lists.old.items < 2 ^ 32 }
    ensures { IfOk result (λ number. IsPieceOf names.old names.new lists.old.items lists.new.items origins.old.items origins.new.items class origin number) }
{
    if let Some(number) = names.name(class) {
        return Ok(number);
    }
    let number = lists.len() as u32;
    lists.push(Vec::new(alloc))?;
    origins.push(origin)?;
    name_class(names, class, number)?;
    Ok(number)
}

/// The number of a class, which needs no look-up where it is the last one that had one.
fn piece_after(
    alloc: Global,
    names: &mut ClassNames<u32>,
    last: Option<(usize, u32)>,
    lists: &mut Vec<Vec<u32>>,
    origins: &mut Vec<u32>,
    class: usize,
    origin: u32,
) -> Result<u32, NoMemory>
    requires few { length lists.old.items < 2 ^ 32 }
    requires last { IfSome last (λ l. class_name names.old l.0 ≡ Some l.1) }
    ensures { IfOk result (λ number. IsPieceOf names.old names.new lists.old.items lists.new.items origins.old.items origins.new.items class origin number) }
{
    match last {
        Some((known, number)) if known == class => Ok(number),
        _ => piece_of(alloc, names, lists, origins, class, origin),
    }
}

/// Moves a router to this block.
fn move_router(
    numbers: &mut Vec<u32>,
    lists: &mut Vec<Vec<u32>>,
    router: u32,
    number: u32,
) -> Result<(), NoMemory>
    requires listed { AreListed numbers.old.items lists.old.items }
    requires router { router < length numbers.old.items }
    requires number { number < length lists.old.items }
    ensures total { OnOk result (length lists.new.items ≡ length lists.old.items) }
    ensures listed { OnOk result (AreListed numbers.new.items lists.new.items) }
    ensures moved { OnOk result (IsMoved numbers.old.items numbers.new.items router number) }
{
    if numbers[router as usize] != number {
        lists[number as usize].push(router)?;
        numbers[router as usize] = number;
    }
    Ok(())
}

/// Moves the reached routers into the pieces of their classes, whatever the pieces were before.
pub fn move_reached(
    alloc: Global,
    pieces: &mut Pieces,
    numbers: &mut Vec<u32>,
    lists: &mut Vec<Vec<u32>>,
    classes: &[usize],
    touched: &[u32],
    reached: &[u32],
) -> Result<(), NoMemory>
    requires fits { length numbers.old.items < 2 ^ 32 }
    requires listed { AreListed numbers.old.items lists.old.items }
    requires used { AreUsed (length lists.old.items) numbers.old.items }
    requires classes { AreNewClasses numbers.old.items classes.now (length lists.old.items) reached.now }
    requires touched { AreTouched numbers.old.items reached.now touched.now }
    requires in_order { IsStrictlyIncreasing touched.now }
    ensures listed { OnOk result (AreListed numbers.new.items lists.new.items) }
    ensures total { OnOk result (length lists.new.items ≡ length lists.old.items + length pieces.new.origins.items) }
    ensures moved { OnOk result (AreMoved numbers.old.items classes.now reached.now (length lists.old.items) numbers.new.items pieces.new.origins.items) }
{
    name_staying(&mut pieces.names, lists, numbers, classes, touched)?;
    pieces.origins.clear();
    let mut last = None;
    for router in reached {
        let class = classes[*router as usize];
        let origin = numbers[*router as usize];
        let number = piece_after(
            alloc,
            &mut pieces.names,
            last,
            lists,
            &mut pieces.origins,
            class,
            origin,
        )?;
        move_router(numbers, lists, *router, number)?;
        last = Some((class, number));
    }
    Ok(())
}

/// Lets the class of each reached router be its block again.
pub fn settle(classes: &mut Vec<usize>, numbers: &[u32], reached: &[u32])
    requires one_class_each { length classes.old.items ≡ length numbers.now }
    requires in_range { All (λ u. u < length numbers.now) reached.now }
    requires rest { (u : ℕ) → u < length numbers.now → ¬ Contains reached.now u → slice_index classes.old.items u ≡ slice_index numbers.now u }
    ensures { classes.new.items ≡ numbers.now }
{
    for router in reached {
        classes[*router as usize] = numbers[*router as usize] as usize;
    }
}
