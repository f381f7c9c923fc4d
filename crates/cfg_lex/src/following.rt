//! A text read line by line, from a place on.

ghost use Rattle.std.specs.Prelude.{◌≡◌, ◌≤◌, [], IfOk, length, true, is_ok};
ghost use Rattle.cfg_lex.specs.Odd.{AreWordsFrom};
ghost use Rattle.cfg_lex.specs.Places.{IsPlace, IsNext, lines_from};

use crate::places::{behind_return, indent_between, is_blank, is_plain, letters_end};
use crate::words::are_kept;
use base_kit::{List, NoMemory};
use cfg_ast::{Line, Span};

/// A place of a text where a line begins: how many lines stand before it, and its first byte.
#[derive(Clone, Copy, Debug, PartialEq, Eq)]
pub struct Place {
    pub number: u32,
    pub from: usize,
}

// The words of a line that has only plain bytes, and where it ends.
#[derive(Drop)]
struct Words {
    spans: List<Span>,
    upto: usize,
}

// The list without its items, whose room it keeps.
fn cleared(spans: List<Span>) -> List<Span>
    ensures { result ≡ [] }
{
    let mut spans = spans.into_vec();
    spans.clear();
    List::from_vec(spans)
}

// The words from a place on, up to the first byte that a line may not have. They take the room of a
// list that is no longer needed.
fn words_from(bytes: &[u8], from: usize, spare: List<Span>) -> Result<Words, NoMemory>
    requires front { from ≤ length bytes.now }
    requires short { length bytes.now ≤ 16777216 }
    ensures { IfOk result (AreWordsFrom bytes.now from) }
{
    let mut spans = cleared(spare);
    let mut i = from;
    while i < bytes.len() && is_plain(bytes[i]) {
        if is_blank(bytes[i]) {
            i += 1;
        } else {
            let end = letters_end(bytes, i);
            spans.push(Span {
                from: i as u32,
                upto: end as u32,
            })?;
            i = end;
        }
    }
    Ok(Words { spans, upto: i })
}

/// The first line from a place on that is not skipped, and the place behind it. Its words take the room
/// of `spare`, a list that is no longer needed.
pub fn line_from(
    bytes: &[u8],
    place: Place,
    spare: List<Span>,
) -> Result<Option<(Line, Place)>, NoMemory>
    requires short { length bytes.now ≤ 16777216 }
    requires place { IsPlace bytes.now place }
    requires sound { is_ok (lines_from bytes.now place) ≡ true }
    ensures { IfOk result (IsNext bytes.now place) }
{
    let mut at = place;
    let mut spare = spare;
    while at.from < bytes.len() {
        let Words { spans, upto } = words_from(bytes, at.from, spare)?;
        let next = Place {
            number: at.number + 1,
            from: behind_return(bytes, upto) + 1,
        };
        if are_kept(bytes, spans.as_slice()) {
            let line = Line {
                number: next.number,
                indent: indent_between(bytes, at.from, upto) as u32,
                words: spans,
            };
            return Ok(Some((line, next)));
        }
        at = next;
        spare = spans;
    }
    Ok(None)
}
