//! Calls on lists, texts, sets, numbers and counters.

ghost use Rattle.std.specs.Prelude.{◌≡◌, ◌+◌, ◌<◌, [], ◌∷◌, ◌++◌, IfOk, OnErr, OnOk};
ghost use Rattle.std.specs.Cmp.Lexicographic.{slice_cmp};
ghost use Rattle.std.specs.Ordering.{nat_cmp};
ghost use Rattle.base_kit.specs.Numbers.{address_of, number_of};
ghost use Rattle.base_kit.specs.Sets.{has, with_number, without_number};

use base_kit::{List, NoMemory, NumSet, Steps, Text, read_address, read_number};
use std::alloc::Global;
use std::cmp::Ordering;
use std::sync::ledger::{Blank, Ledger};

/// A list without items.
pub fn empty_list<T>(alloc: Global) -> List<T>
    ensures { result ≡ [] }
{
    List::new(alloc)
}

/// Puts an item last.
pub fn put_last<T: Drop>(list: &mut List<T>, item: T) -> Result<(), NoMemory>
    ensures ok { OnOk result (list.new ≡ list.old ++ item ∷ []) }
    ensures err { OnErr result (list.new ≡ list.old) }
{
    list.push(item)
}

/// The items of a list, in order.
pub fn items_of<T>(list: &List<T>) -> &[T]
    ensures { result.now ≡ list.now }
{
    list.as_slice()
}

/// A text without bytes.
pub fn empty_text(alloc: Global) -> Text
    ensures { result ≡ [] }
{
    Text::new(alloc)
}

/// Appends a word.
pub fn put_word(text: &mut Text, word: &str) -> Result<(), NoMemory>
    ensures ok { OnOk result (text.new ≡ text.old ++ word.now) }
    ensures err { OnErr result (text.new ≡ text.old) }
{
    text.push_str(word)
}

/// What a text says.
pub fn words_of(text: &Text) -> &str
    ensures { result.now ≡ text.now }
{
    text.as_str()
}

/// A set without numbers.
pub fn empty_set(alloc: Global) -> NumSet
    ensures { result ≡ [] }
{
    NumSet::new(alloc)
}

/// The numbers of a set, ascending.
pub fn numbers_of(set: &NumSet) -> &[u32]
    ensures { result.now ≡ set.now }
{
    set.as_slice()
}

/// Whether a number is in a set.
pub fn holds(set: &NumSet, n: u32) -> bool
    ensures { result ≡ has set.now n }
{
    set.has(n)
}

/// How two sets compare, as ascending lists.
pub fn order_of(set: &NumSet, other: &NumSet) -> Ordering
    ensures { result ≡ slice_cmp nat_cmp set.now other.now }
{
    set.cmp(other)
}

/// Puts a number into a set.
pub fn put_number(set: &mut NumSet, n: u32) -> Result<(), NoMemory>
    ensures ok { OnOk result (set.new ≡ with_number n set.old) }
    ensures err { OnErr result (set.new ≡ set.old) }
{
    set.add(n)
}

/// A set without a number.
pub fn set_without(set: &NumSet, n: u32) -> Result<NumSet, NoMemory>
    ensures { IfOk result (λ rest. rest ≡ without_number n set.now) }
{
    set.without(n)
}

/// The number that a word is.
pub fn number_in(word: &[u8]) -> Option<u32>
    ensures { result ≡ number_of word.now }
{
    read_number(word)
}

/// The address that a word is.
pub fn address_in(word: &[u8]) -> Option<u32>
    ensures { result ≡ address_of word.now }
{
    read_address(word)
}

/// A counter at 0.
pub fn counter<L: Ledger>(blank: Blank) -> Steps<L>
    requires name { blank.name ≡ L.name }
    requires parts { blank.parts ≡ L.parts }
    requires some { 0 < L.parts }
    ensures { result ≡ 0 }
{
    Steps::new(blank)
}

/// Counts a step.
pub fn count_step<L: Ledger>(steps: &mut Steps<L>)
    ensures { steps.new ≡ steps.old + 1 }
{
    steps.tick();
}
