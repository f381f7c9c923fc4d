//! The numbers of entries that do not ascend.

ghost use Rattle.std.specs.Prelude.{◌≡◌, true, not, OnOk};
ghost use Rattle.named_lists.specs.NumberedLists.{ascends, are_below, has_entry_numbered, HoldsAt, Adds, added};

use crate::numbered::Numbered;
use base_kit::NoMemory;
use std::collections::BTreeSet;

// The numbers of lists that do not ascend stand in a set, each with the place of its list. A list that
// ascends, as nearly all do, takes no memory for its numbers. Its entries are compared one by one only
// with a number that is not past the last: once an entry of that number is put in, the list does not
// ascend.

/// Whether the numbers of the entries of the list at a place stand in the set.
fn is_held<E: Numbered>(numbers: &BTreeSet<(usize, u32)>, place: usize, entries: &[E]) -> bool
    requires { HoldsAt E.number numbers.now place entries.now }
    ensures { result ≡ not (ascends E.number entries.now) }
{
    match entries {
        [] => false,
        [first, ..] => numbers.contains(&(place, first.number())),
    }
}

// Whether a number is larger than those of entries that ascend.
fn is_past<E: Numbered>(entries: &[E], number: u32) -> bool
    requires { ascends E.number entries.now ≡ true }
    ensures { result ≡ are_below E.number entries.now number }
{
    match entries {
        [] => true,
        [.., last] => last.number() < number,
    }
}

/// Whether an entry of the list at a place has the number.
pub(crate) fn has_number<E: Numbered>(
    numbers: &BTreeSet<(usize, u32)>,
    place: usize,
    entries: &[E],
    number: u32,
) -> bool
    requires { HoldsAt E.number numbers.now place entries.now }
    ensures { result ≡ has_entry_numbered E.number entries.now number }
{
    if is_held(numbers, place, entries) {
        return numbers.contains(&(place, number));
    }
    if is_past(entries, number) {
        return false;
    }
    entries.iter().any(|entry| entry.number() == number)
}

// Puts the numbers of the entries at a place into the set.
fn hold_all<E: Numbered>(
    numbers: &mut BTreeSet<(usize, u32)>,
    place: usize,
    entries: &[E],
) -> Result<(), NoMemory>
    ensures { OnOk result (Adds numbers.old numbers.new place (has_entry_numbered E.number entries.now)) }
{
    for entry in entries {
        numbers.insert((place, entry.number()))?;
    }
    Ok(())
}

/// Puts in what the set has to hold after an entry of this number was put behind the others at a place.
pub(crate) fn hold<E: Numbered>(
    numbers: &mut BTreeSet<(usize, u32)>,
    place: usize,
    entries: &[E],
    number: u32,
) -> Result<(), NoMemory>
    requires { HoldsAt E.number numbers.old place entries.now }
    ensures { OnOk result (Adds numbers.old numbers.new place (added E.number entries.now number)) }
{
    if !is_held(numbers, place, entries) {
        if is_past(entries, number) {
            return Ok(());
        }
        hold_all(numbers, place, entries)?;
    }
    numbers.insert((place, number))?;
    Ok(())
}
