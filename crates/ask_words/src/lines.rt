//! The lines of a file of questions.

ghost use Rattle.std.specs.Prelude.{◌≡◌, IfOk, map};
ghost use Rattle.cfg_ast.specs.text.Lines.{texts};
ghost use Rattle.cfg_ast.specs.text.Members.{AreSpansIn, IsSpanIn};
ghost use Rattle.cfg_ast.specs.text.TextLines.{text_line};
ghost use Rattle.std.specs.List.{AllByRecursion};
ghost use Rattle.ask_words.specs.Lines.{asks, begins_with_mark};
ghost use Rattle.ask_words.specs.Tasks.{request_of};

use crate::request::Request;
use crate::tasks::request_in;
use base_kit::NoMemory;
use cfg_ast::{Line, Span};
use std::alloc::Global;

// The bytes of each word.
fn bytes_of<'a>(alloc: Global, text: &'a [u8], words: &[Span]) -> Result<Vec<&'a [u8]>, NoMemory>
    requires { AllByRecursion (IsSpanIn text.now) words.now }
    ensures { IfOk result (λ bytes. map (λ word. word.now) bytes.items ≡ texts text.now words.now) }
{
    let mut bytes = Vec::new(alloc);
    for word in words {
        bytes.push(&text[word.from as usize..word.upto as usize])?;
    }
    Ok(bytes)
}

fn begins_with_mark(word: &[u8]) -> bool
    ensures { result ≡ begins_with_mark word.now }
{
    match word {
        [] => false,
        [first, ..] => *first == b'!',
    }
}

/// Whether a line asks something: it is neither empty nor a remark, whose first byte is `!`.
pub fn asks(text: &[u8], line: &Line) -> bool
    requires { AreSpansIn text.now line.now }
    ensures { result ≡ asks (text_line text.now line.now) }
{
    match line.words.as_slice() {
        [] => false,
        [first, ..] => {
            line.indent != 0 || !begins_with_mark(&text[first.from as usize..first.upto as usize])
        }
    }
}

/// What the words of a line ask, if they are of a form.
///
/// # Errors
/// Out of memory.
pub fn read_line(alloc: Global, text: &[u8], line: &Line) -> Result<Option<Request>, NoMemory>
    requires { AreSpansIn text.now line.now }
    ensures { IfOk result (λ request. request ≡ request_of (texts text.now line.now.words)) }
{
    let bytes = bytes_of(alloc, text, line.words.as_slice())?;
    request_in(alloc, &bytes)
}
