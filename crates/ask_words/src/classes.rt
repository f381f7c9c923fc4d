//! The word for the classes that are asked.

ghost use Rattle.std.specs.Prelude.{◌≡◌, ◌≤◌, IfSome};
ghost use Rattle.cfg_ast.specs.text.Words.{number_between, prefix_of};
ghost use Rattle.ask_words.specs.Words.{short_number};
ghost use Rattle.ask_words.specs.ClassWords.{classes_of_word, range_of};

use crate::request::Classes;
use base_kit::Prefix;
use cfg_words::marks::{behind, has, place_of};
use cfg_words::{cut_to, read_address, read_between, read_number};

/// A number of at most nine digits.
#[tactic(auto, unfolding(crate::specs::Words::short_number))]
pub(crate) fn short_number(word: &[u8]) -> Option<u32>
    ensures { result ≡ short_number word.now }
{
    let n = read_number(word)?;
    if n <= 999_999_999 { Some(n) } else { None }
}

// The length of a prefix.
fn length_in(word: &[u8]) -> Option<u8>
    ensures value { result ≡ number_between 0 32 word.now }
    ensures bound { IfSome result (λ len. len ≤ 32) }
{
    let len = read_between(word, 0, 32)?;
    Some(len as u8)
}

#[tactic(auto, unfolding(cfg_ast::specs::text::Words::prefix_of))]
fn prefix(word: &[u8]) -> Option<Prefix>
    ensures { result ≡ prefix_of word.now }
{
    let slash = place_of(word, b'/');
    let addr = read_address(&word[..slash])?;
    let len = length_in(behind(word, slash))?;
    Some(cut_to(len, addr))
}

// Two numbers with a hyphen between them.
#[tactic(auto, unfolding(crate::specs::ClassWords::range_of))]
fn range(word: &[u8]) -> Option<Classes>
    ensures { result ≡ range_of word.now }
{
    let hyphen = place_of(word, b'-');
    let from = short_number(&word[..hyphen])?;
    let to = short_number(behind(word, hyphen))?;
    if 1 <= from && from <= to {
        Some(Classes::Range(from, to))
    } else {
        None
    }
}

/// The classes that a word names: all, by a number or a range of numbers, by a prefix or by an address.
#[tactic(auto, unfolding(crate::specs::ClassWords::classes_of_word))]
pub(crate) fn classes_in(word: &[u8]) -> Option<Classes>
    ensures { result ≡ classes_of_word word.now }
{
    if word == b"*".as_slice() {
        return Some(Classes::All);
    }
    if has(word, b'/') {
        let prefix = prefix(word)?;
        return Some(Classes::Having(prefix));
    }
    if has(word, b'-') {
        return range(word);
    }
    if has(word, b'.') {
        let addr = read_address(word)?;
        return Some(Classes::Holding(addr));
    }
    let number = short_number(word)?;
    Some(Classes::Number(number))
}
