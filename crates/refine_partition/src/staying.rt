//! The pieces that keep the numbers of their blocks.

ghost use Rattle.std.specs.Prelude.{◌≡◌, ◌<◌, All, OnOk, length};
ghost use Rattle.std.specs.List.Sorted.{IsStrictlyIncreasing};
ghost use Rattle.refine_partition.specs.Loose.{AreFiner, AreListed, AreStaying, AreUsed, HasMember, IsNamedAs, IsStayingClass, IsStillListed};

use crate::class_names::ClassNames;
use base_kit::NoMemory;

/// The class of a block's members that keeps its number: that of the members that no edge reaches, where
/// there are any. Routers that have left the block are dropped from its list where they are met.
fn staying_class(list: &mut Vec<u32>, numbers: &[u32], classes: &[usize], block: u32) -> usize
    requires routers { All (λ u. u < length numbers.now) list.old.items }
    requires one_class_each { length classes.now ≡ length numbers.now }
    requires some { HasMember numbers.now block list.old.items }
    ensures listed { IsStillListed numbers.now block list.old.items list.new.items }
    ensures staying { IsStayingClass numbers.now classes.now block list.old.items result }
{
    let mut place = 0;
    while place < list.len() {
        let router = list[place];
        if numbers[router as usize] != block {
            list.swap_remove(place);
        } else if classes[router as usize] == block as usize {
            return block as usize;
        } else {
            place += 1;
        }
    }
    classes[list[0] as usize]
}

/// Gives the class this number.
pub fn name_class(names: &mut ClassNames<u32>, class: usize, number: u32) -> Result<(), NoMemory>
    ensures { OnOk result (IsNamedAs names.old names.new class number) }
{
    names.put(class, number)
}

/// Names the classes that keep the numbers of these blocks, and no others.
pub fn name_staying(
    names: &mut ClassNames<u32>,
    lists: &mut Vec<Vec<u32>>,
    numbers: &[u32],
    classes: &[usize],
    blocks: &[u32],
) -> Result<(), NoMemory>
    requires listed { AreListed numbers.now lists.old.items }
    requires used { AreUsed (length lists.old.items) numbers.now }
    requires one_class_each { length classes.now ≡ length numbers.now }
    requires finer { AreFiner numbers.now classes.now }
    requires known { All (λ block. block < length lists.old.items) blocks.now }
    requires in_order { IsStrictlyIncreasing blocks.now }
    ensures total { OnOk result (length lists.new.items ≡ length lists.old.items) }
    ensures listed { OnOk result (AreListed numbers.now lists.new.items) }
    ensures staying { OnOk result (AreStaying numbers.now classes.now blocks.now names.new) }
{
    names.clear();
    for block in blocks {
        let class = staying_class(&mut lists[*block as usize], numbers, classes, *block);
        name_class(names, class, *block)?;
    }
    Ok(())
}
