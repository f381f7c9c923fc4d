//! The words of one line, one after the other.

ghost use Rattle.std.specs.Prelude.{◌≡◌, ◌≤◌, ◌<◌, ◌∷◌, [], length, not, MatchOption, IfSome};
ghost use Rattle.std.specs.List.{position_or_len};
ghost use Rattle.cfg_ast.specs.text.Lines.{is_blank, words_of};

use crate::places::is_blank;

// How many blanks and tabs lead the line.
fn blanks_before(line: &[u8]) -> usize
    ensures value { result ≡ position_or_len (λ b. not (is_blank b)) line.now }
    ensures bound { result ≤ length line.now }
{
    for (i, b) in line.iter().enumerate() {
        if !is_blank(*b) {
            return i;
        }
    }
    line.len()
}

// How many bytes stand before the first blank or tab.
fn word_length(line: &[u8]) -> usize
    ensures value { result ≡ position_or_len is_blank line.now }
    ensures bound { result ≤ length line.now }
{
    for (i, b) in line.iter().enumerate() {
        if is_blank(*b) {
            return i;
        }
    }
    line.len()
}

/// The first word of a line, and the line behind it.
pub fn next_word(line: &[u8]) -> Option<(&[u8], &[u8])>
    ensures words { MatchOption result (words_of line.now ≡ []) (λ cut. words_of line.now ≡ cut.0.now ∷ words_of cut.1.now) }
    ensures shorter { IfSome result (λ cut. length cut.1.now < length line.now) }
{
    let from = blanks_before(line);
    if from == line.len() {
        return None;
    }
    let line = &line[from..];
    let upto = word_length(line);
    Some((&line[..upto], &line[upto..]))
}
