//! Places of bytes in a line.

ghost use Rattle.std.specs.Prelude.{◌≡◌, ◌-◌, ◌≤◌, length};
ghost use Rattle.cfg_ast.specs.text.Lines.{is_blank, is_plain, newline_from, without_return, word_end, indent_between, odd_from};
ghost use Rattle.cfg_lex.specs.Odd.{is_letter, letters_end, behind_return};

use crate::lanes::{LANES, letter_run, plain_run};

pub(crate) fn is_blank(b: u8) -> bool
    ensures { result ≡ is_blank b }
{
    b == b' ' || b == b'\t'
}

pub(crate) fn is_plain(b: u8) -> bool
    ensures { result ≡ is_plain b }
{
    b == b'\t' || b >= b' ' && b <= b'~'
}

/// The place of the first newline from `from` on, or the end.
#[tactic(auto, using(cfg_ast::proofs::Places::first_next, cfg_ast::proofs::Places::first_here, cfg_ast::proofs::Places::first_end))]
pub fn newline_from(bytes: &[u8], from: usize) -> usize
    requires { from ≤ length bytes.now }
    ensures place { result ≡ newline_from bytes.now from }
    ensures bounds { (from ≤ result) × (result ≤ length bytes.now) }
{
    let mut i = from;
    while i < bytes.len() && bytes[i] != b'\n' {
        i += 1;
    }
    i
}

/// The end of a line without a carriage return.
pub fn without_return(bytes: &[u8], from: usize, end: usize) -> usize
    requires front { from ≤ end }
    requires end { end ≤ length bytes.now }
    ensures place { result ≡ without_return bytes.now from end }
    ensures bounds { (from ≤ result) × (result ≤ end) }
{
    if from < end && bytes[end - 1] == b'\r' {
        end - 1
    } else {
        end
    }
}

// The end of the word that begins at `from`.
#[tactic(auto, using(cfg_ast::proofs::Places::first_next, cfg_ast::proofs::Places::first_here, cfg_ast::proofs::Places::first_end))]
pub(crate) fn word_end(bytes: &[u8], from: usize, upto: usize) -> usize
    requires front { from ≤ upto }
    requires end { upto ≤ length bytes.now }
    ensures place { result ≡ word_end bytes.now from upto }
    ensures bounds { (from ≤ result) × (result ≤ upto) }
{
    let mut i = from;
    while i < upto && !is_blank(bytes[i]) {
        i += 1;
    }
    i
}

// How many blanks and tabs lead the line.
#[tactic(auto, using(cfg_ast::proofs::Places::first_next, cfg_ast::proofs::Places::first_here, cfg_ast::proofs::Places::first_end))]
pub(crate) fn indent_between(bytes: &[u8], from: usize, upto: usize) -> usize
    requires front { from ≤ upto }
    requires end { upto ≤ length bytes.now }
    ensures value { result ≡ indent_between bytes.now from upto }
    ensures bound { result ≤ upto - from }
{
    let mut i = from;
    while i < upto && is_blank(bytes[i]) {
        i += 1;
    }
    i - from
}

// As `odd_from`, byte by byte: for the last bytes, fewer than sixteen.
#[tactic(auto, using(cfg_ast::proofs::Places::first_next, cfg_ast::proofs::Places::first_here, cfg_ast::proofs::Places::first_end))]
fn odd_among_few(bytes: &[u8], from: usize, upto: usize) -> usize
    requires front { from ≤ upto }
    requires end { upto ≤ length bytes.now }
    ensures place { result ≡ odd_from bytes.now from upto }
    ensures bounds { (from ≤ result) × (result ≤ upto) }
{
    let mut i = from;
    while i < upto && is_plain(bytes[i]) {
        i += 1;
    }
    i
}

// The place of the first byte that a line may not have, or the end.
pub(crate) fn odd_from(bytes: &[u8], from: usize, upto: usize) -> usize
    requires front { from ≤ upto }
    requires end { upto ≤ length bytes.now }
    ensures place { result ≡ odd_from bytes.now from upto }
    ensures bounds { (from ≤ result) × (result ≤ upto) }
{
    let mut i = from;
    while LANES <= upto - i {
        let run = plain_run(bytes, i);
        if run < LANES {
            return i + run;
        }
        i += LANES;
    }
    odd_among_few(bytes, i, upto)
}

// A byte of a word: one that prints, and no blank.
fn is_letter(b: u8) -> bool
    ensures { result ≡ is_letter b }
{
    b >= b'!' && b <= b'~'
}

// As `letters_end`, byte by byte: for the last bytes, fewer than sixteen.
#[tactic(auto, using(cfg_ast::proofs::Places::first_next, cfg_ast::proofs::Places::first_here, cfg_ast::proofs::Places::first_end))]
fn letters_end_among_few(bytes: &[u8], from: usize) -> usize
    requires { from ≤ length bytes.now }
    ensures place { result ≡ letters_end bytes.now from }
    ensures bounds { (from ≤ result) × (result ≤ length bytes.now) }
{
    let mut i = from;
    while i < bytes.len() && is_letter(bytes[i]) {
        i += 1;
    }
    i
}

// The place of the first byte from `from` on that is none of a word, or the end of the text.
pub(crate) fn letters_end(bytes: &[u8], from: usize) -> usize
    requires { from ≤ length bytes.now }
    ensures place { result ≡ letters_end bytes.now from }
    ensures bounds { (from ≤ result) × (result ≤ length bytes.now) }
{
    let mut i = from;
    while LANES <= bytes.len() - i {
        let run = letter_run(bytes, i);
        if run < LANES {
            return i + run;
        }
        i += LANES;
    }
    letters_end_among_few(bytes, i)
}

// The place behind a carriage return, if one stands here.
pub(crate) fn behind_return(bytes: &[u8], at: usize) -> usize
    requires { at ≤ length bytes.now }
    ensures place { result ≡ behind_return bytes.now at }
    ensures bounds { (at ≤ result) × (result ≤ length bytes.now) }
{
    if at < bytes.len() && bytes[at] == b'\r' {
        at + 1
    } else {
        at
    }
}
