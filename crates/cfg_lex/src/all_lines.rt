//! All lines of a text, also those that are skipped.

ghost use Rattle.std.specs.Prelude.{◌≡◌, ◌≤◌, IfOk, All, length};
ghost use Rattle.cfg_ast.specs.text.Members.{all_lines_of, AreSpansIn};

use crate::places::{indent_between, newline_from, without_return};
use crate::words::words_between;
use base_kit::{List, NoMemory};
use cfg_ast::Line;
use std::alloc::Global;

/// All lines of a text, numbered from 1, including those that are skipped. There may be any number of
/// lines, of any length and with any bytes.
pub fn every_line(alloc: Global, bytes: &[u8]) -> Result<List<Line>, NoMemory>
    requires { length bytes.now ≤ 268435456 }
    ensures exact { IfOk result (λ found. found ≡ all_lines_of bytes.now) }
    ensures within { IfOk result (All (AreSpansIn bytes.now)) }
{
    let mut found = List::new(alloc);
    let mut number = 0;
    let mut from = 0;
    while from < bytes.len() {
        number += 1;
        let end = newline_from(bytes, from);
        let upto = without_return(bytes, from, end);
        let line = Line {
            number,
            indent: indent_between(bytes, from, upto) as u32,
            words: words_between(alloc, bytes, from, upto)?,
        };
        found.push(line)?;
        from = end + 1;
    }
    Ok(found)
}
