//! Faults of lines as such: bytes, lengths, numbers.

ghost use Rattle.std.specs.Prelude.{◌≡◌, ◌≤◌, length};
ghost use Rattle.cfg_ast.specs.text.Lines.{lines_of};
ghost use Rattle.cfg_lex.specs.Odd.{odd_end, behind_return, kind_from};
ghost use Rattle.cfg_lex.specs.Places.{without_value};

use crate::places::{behind_return, odd_from};
use cfg_ast::{Kind, ReadRefusal};

// The fault of a line whose bytes are plain up to `upto`. It ends there, or behind a carriage return.
pub(crate) fn kind_from(
    bytes: &[u8],
    number: u32,
    from: usize,
    upto: usize,
    end: usize,
) -> Option<Kind>
    requires inside { from ≤ length bytes.now }
    requires front { from ≤ upto }
    requires odd { upto ≡ odd_end bytes.now from }
    requires end { end ≡ behind_return bytes.now upto }
    ensures { result ≡ kind_from bytes.now number from }
{
    if end < bytes.len() && bytes[end] != b'\n' {
        Some(Kind::NotAscii)
    } else if upto - from > 1024 {
        Some(Kind::LineTooLong)
    } else if number > 1_000_000 {
        Some(Kind::TooManyLines)
    } else {
        None
    }
}

/// Whether each line of a text is free of faults. It keeps nothing of the lines.
///
/// # Errors
///
/// The refusal of `lines`, which decides in the same way.
pub fn sound(bytes: &[u8]) -> Result<(), ReadRefusal>
    requires { length bytes.now ≤ 16777216 }
    ensures { result ≡ without_value (lines_of bytes.now) }
{
    let mut number = 0;
    let mut from = 0;
    while from < bytes.len() {
        number += 1;
        let upto = odd_from(bytes, from, bytes.len());
        let end = behind_return(bytes, upto);
        if let Some(kind) = kind_from(bytes, number, from, upto, end) {
            return Err(ReadRefusal::At { line: number, kind });
        }
        from = end + 1;
    }
    Ok(())
}
