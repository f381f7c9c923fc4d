//! What is left of lists on a stretch of addresses, for the prefixes of one length.

ghost use Rattle.std.specs.Prelude.{◌≡◌, ◌+◌, ◌≤◌, IfOk, map, length};
ghost use Rattle.std.specs.List.{AllByRecursion};
ghost use Rattle.cfg_ast.specs.meaning.PrefixLists.{leading_bits, length_fits};
ghost use Rattle.dest_classes.specs.Cells.{word_of};
ghost use Rattle.dest_classes.specs.Stretches.{has_address, may_hold, left_of, permits_at, settled_answer, bit_sum, is_in_range, stretch_word, AddsList, IsStretch};

use base_kit::{NoMemory, Prefix};
use cfg_ast::{PrefixEntry, PrefixList};
use prefix_lists::permits;
use std::alloc::Global;

/// So many lists are asked at once, since their answers are the bits of a word.
pub const AT_ONCE: usize = 64;

// A prefix has one of so many lengths.
const LENGTHS: usize = 33;

/// What an entry answers to the prefixes in its block whose length it takes.
#[derive(Clone, Copy)]
pub struct BlockAnswer {
    pub block: Prefix,
    pub permit: bool,
}

/// A list that does not answer alike on a whole stretch: its bit in the word, and what is left of it.
#[derive(Drop)]
pub struct LeftList {
    pub bit: u64,
    pub answers: Vec<BlockAnswer>,
}

/// What lists answer to the prefixes of one length from one address to before another: the bits of those
/// that permit everywhere there, and the lists that do not answer alike.
#[derive(Drop)]
pub struct Stretch {
    pub from: Prefix,
    pub until: u64,
    pub settled: u64,
    pub left: Vec<LeftList>,
}

// The answers of the lists to a prefix, as the bits of a number.
fn word_of(lists: &[&PrefixList], prefix: Prefix) -> u64
    requires { length lists.now ≤ AT_ONCE }
    ensures { result ≡ word_of (map (λ list. list.now) lists.now) prefix }
{
    let mut word = 0;
    for list in lists {
        word = 2 * word + u64::from(permits(list, prefix));
    }
    word
}

// The bits of an address that count in a block.
fn bits_in(block: Prefix, addr: u32) -> u64
    ensures { result ≡ leading_bits block.len addr }
{
    addr as u64 >> (32 - block.len())
}

fn has_address(block: Prefix, addr: u32) -> bool
    ensures { result ≡ has_address block addr }
{
    bits_in(block, addr) == bits_in(block, block.addr())
}

fn takes_length(entry: &PrefixEntry, len: u8) -> bool
    requires { len ≤ 32 }
    ensures { result ≡ length_fits entry.now.prefix.len entry.now.ge entry.now.le len }
{
    match (entry.ge, entry.le) {
        (None, None) => len == entry.prefix.len(),
        (Some(ge), None) => ge <= len && len <= 32,
        (None, Some(le)) => entry.prefix.len() <= len && len <= le,
        (Some(ge), Some(le)) => ge <= len && len <= le,
    }
}

// Whether the entry may hold for a prefix as long as the first, up to the last address.
fn may_hold(entry: &PrefixEntry, first: Prefix, last: u32) -> bool
    ensures { result ≡ may_hold first last entry.now }
{
    let block = entry.prefix;
    let bits = bits_in(block, block.addr());
    takes_length(entry, first.len())
        && bits_in(block, first.addr()) <= bits
        && bits <= bits_in(block, last)
}

// The answers of the entries that may hold, up to one that holds on the whole stretch.
fn left_of(
    alloc: Global,
    entries: &[PrefixEntry],
    first: Prefix,
    last: u32,
) -> Result<Vec<BlockAnswer>, NoMemory>
    ensures { IfOk result (λ v. v.items ≡ left_of first last entries.now) }
{
    let mut left = Vec::new(alloc);
    for entry in entries {
        if may_hold(entry, first, last) {
            left.push(BlockAnswer {
                block: entry.prefix,
                permit: entry.permit,
            })?;
            if has_address(entry.prefix, first.addr()) && has_address(entry.prefix, last) {
                return Ok(left);
            }
        }
    }
    Ok(left)
}

// What a list answers on the whole stretch by what is left of it, None where it does not answer alike.
fn settled_answer(answers: &[BlockAnswer], first: u32, last: u32) -> Option<bool>
    ensures { result ≡ settled_answer answers.now first last }
{
    match answers {
        [] => Some(false),
        [answer, ..] => if has_address(answer.block, first) && has_address(answer.block, last) {
            Some(answer.permit)
        } else {
            None
        },
    }
}

// The stretch with one list more, by its bit and what is left of it.
fn with_list(
    stretch: Stretch,
    bit: u64,
    answers: Vec<BlockAnswer>,
    last: u32,
) -> Result<Stretch, NoMemory>
    requires { bit_sum stretch + bit ≤ 18446744073709551615 }
    ensures { IfOk result (AddsList stretch bit answers.items last) }
{
    match settled_answer(answers.as_slice(), stretch.from.addr(), last) {
        Some(true) => Ok(Stretch {
            settled: stretch.settled + bit,
            ..stretch
        }),
        Some(false) => Ok(stretch),
        None => {
            let mut more = stretch;
            more.left.push(LeftList { bit, answers })?;
            Ok(more)
        }
    }
}

// The stretch of the lists from the first prefix to the last address.
fn stretch_from(
    alloc: Global,
    lists: &[&PrefixList],
    first: Prefix,
    last: u32,
) -> Result<Stretch, NoMemory>
    requires { length lists.now ≤ AT_ONCE }
    ensures { IfOk result (IsStretch (map (λ list. list.now) lists.now)) }
{
    let mut stretch = Stretch {
        from: first,
        until: u64::from(last) + 1,
        settled: 0,
        left: Vec::new(alloc),
    };
    let mut behind = lists.len();
    for list in lists {
        behind -= 1;
        let answers = left_of(alloc, list.entries.as_slice(), first, last)?;
        stretch = with_list(stretch, 1 << behind, answers, last)?;
    }
    Ok(stretch)
}

fn permits_at(answers: &[BlockAnswer], addr: u32) -> bool
    ensures { result ≡ permits_at answers.now addr }
{
    for answer in answers {
        if has_address(answer.block, addr) {
            return answer.permit;
        }
    }
    false
}

fn stretch_word(stretch: &Stretch, addr: u32) -> u64
    requires { bit_sum stretch.now ≤ 18446744073709551615 }
    ensures { result ≡ stretch_word stretch.now addr }
{
    let mut word = stretch.settled;
    for list in stretch.left.as_slice() {
        if permits_at(list.answers.as_slice(), addr) {
            word += list.bit;
        }
    }
    word
}

// Whether a prefix has this length and an address from this one to before the limit.
fn is_in_range(first: Prefix, until: u64, prefix: Prefix) -> bool
    ensures { result ≡ is_in_range first until prefix }
{
    first.len() == prefix.len() && first.addr() <= prefix.addr() && u64::from(prefix.addr()) < until
}

// The answers of the lists to a prefix, by the stretch if it reaches there.
fn word_on(lists: &[&PrefixList], stretch: &Stretch, prefix: Prefix) -> u64
    requires few { length lists.now ≤ AT_ONCE }
    requires stretch { IsStretch (map (λ list. list.now) lists.now) stretch.now }
    ensures { result ≡ word_of (map (λ list. list.now) lists.now) prefix }
{
    if is_in_range(stretch.from, stretch.until, prefix) {
        stretch_word(stretch, prefix.addr())
    } else {
        word_of(lists, prefix)
    }
}

/// The answers of the lists to a prefix, by the stretch that is kept for its length.
pub fn word_by_stretch(
    alloc: Global,
    lists: &[&PrefixList],
    stretches: &mut [Stretch],
    prefix: Prefix,
    last: u32,
) -> Result<u64, NoMemory>
    requires few { length lists.now ≤ AT_ONCE }
    requires stretches { AllByRecursion (IsStretch (map (λ list. list.now) lists.now)) stretches.old }
    ensures word { IfOk result (λ word. word ≡ word_of (map (λ list. list.now) lists.now) prefix) }
    ensures stretches { AllByRecursion (IsStretch (map (λ list. list.now) lists.now)) stretches.new }
{
    let place = prefix.len() as usize;
    if place >= stretches.len() {
        return Ok(word_of(lists, prefix));
    }
    // A stretch that does not reach the prefix gives its place to one from there to the last address.
    let kept = &stretches[place];
    if !is_in_range(kept.from, kept.until, prefix) {
        stretches[place] = stretch_from(alloc, lists, prefix, last)?;
    }
    Ok(word_on(lists, &stretches[place], prefix))
}

/// The stretches at the start, which hold for no prefix.
pub fn first_stretches(alloc: Global, lists: &[&PrefixList]) -> Result<Vec<Stretch>, NoMemory>
    ensures { IfOk result (λ v. AllByRecursion (IsStretch (map (λ list. list.now) lists.now)) v.items) }
{
    let mut stretches = Vec::with_capacity(alloc, LENGTHS)?;
    while stretches.len() < LENGTHS {
        stretches.push(Stretch {
            from: Prefix::new(0, 0),
            until: 0,
            settled: 0,
            left: Vec::new(alloc),
        })?;
    }
    Ok(stretches)
}
