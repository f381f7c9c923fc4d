//! The top line `end`.

ghost use Rattle.std.specs.Prelude.{◌≡◌};
ghost use Rattle.std.specs.List.{AllByRecursion};
ghost use Rattle.cfg_ast.specs.text.Lines.{texts};
ghost use Rattle.cfg_ast.specs.text.TextLines.{text_line};
ghost use Rattle.cfg_ast.specs.text.Reading.{is_end};
ghost use Rattle.cfg_ast.specs.text.Members.{IsSpanIn, AreSpansIn, is_end_line};

use cfg_ast::{Line, Span};

fn is_end(bytes: &[u8], words: &[Span]) -> bool
    requires { AllByRecursion (IsSpanIn bytes.now) words.now }
    ensures { result ≡ is_end (texts bytes.now words.now) }
{
    let [word] = words else {
        return false;
    };
    &bytes[word.from as usize..word.upto as usize] == b"end".as_slice()
}

/// Whether the line is the top line `end`.
pub(crate) fn is_end_line(bytes: &[u8], line: &Line) -> bool
    requires { AreSpansIn bytes.now line.now }
    ensures { result ≡ is_end_line (text_line bytes.now line.now) }
{
    line.indent == 0 && is_end(bytes, line.words.as_slice())
}
