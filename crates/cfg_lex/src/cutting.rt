//! A text cut into its lines.

ghost use Rattle.std.specs.Prelude.{◌≡◌, ◌≤◌, ◌++◌, ◌∷◌, [], OnOk, IfOk, All, length, if◌then◌else◌};
ghost use Rattle.cfg_ast.specs.text.Answers.{Gives};
ghost use Rattle.cfg_ast.specs.text.Lines.{are_kept, lines_of, IsLineIn};

use crate::faults::kind_from;
use crate::places::{behind_return, indent_between, odd_from};
use crate::words::{are_kept, words_between};
use base_kit::{List, NoMemory};
use cfg_ast::{Line, ReadRefusal};
use std::alloc::Global;

// Puts the line last, unless it is skipped.
fn keep(found: &mut List<Line>, bytes: &[u8], line: Line) -> Result<(), NoMemory>
    ensures { OnOk result (found.new ≡ (if are_kept bytes.now line.words then found.old ++ line ∷ [] else found.old)) }
{
    if are_kept(bytes, line.words.as_slice()) {
        found.push(line)?;
    }
    Ok(())
}

/// The lines of a text that are not skipped, numbered from 1: lines that have words, and whose first
/// word does not begin with `!`.
///
/// # Errors
///
/// The first line with a fault decides: `NotAscii` for a byte other than a tab and 0x20 to 0x7E, else
/// `LineTooLong` for more than 1,024 bytes, else `TooManyLines` for line 1,000,001. `Memory` where
/// memory ran out.
pub fn lines(alloc: Global, bytes: &[u8]) -> Result<List<Line>, ReadRefusal>
    requires { length bytes.now ≤ 16777216 }
    ensures exact { Gives result (lines_of bytes.now) }
    ensures within { IfOk result (All (IsLineIn bytes.now)) }
{
    let mut found = List::new(alloc);
    let mut number = 0;
    let mut from = 0;
    while from < bytes.len() {
        number += 1;
        let upto = odd_from(bytes, from, bytes.len());
        let end = behind_return(bytes, upto);
        if let Some(kind) = kind_from(bytes, number, from, upto, end) {
            return Err(ReadRefusal::At { line: number, kind });
        }
        let line = Line {
            number,
            indent: indent_between(bytes, from, upto) as u32,
            words: words_between(alloc, bytes, from, upto)?,
        };
        keep(&mut found, bytes, line)?;
        from = end + 1;
    }
    Ok(found)
}
