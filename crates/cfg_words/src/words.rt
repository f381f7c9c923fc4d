//! The bytes of a word, and a copy of them.

ghost use Rattle.std.specs.Prelude.{◌≡◌, ◌≤◌, length, IfOk};
ghost use Rattle.std.specs.Str.{IsAscii};
ghost use Rattle.cfg_ast.specs.text.Lines.{IsWordIn, text_of};

use base_kit::{NoMemory, Text};
use cfg_ast::Span;
use std::alloc::Global;

/// The bytes of a word.
pub fn text(bytes: &[u8], word: Span) -> &[u8]
    requires { IsWordIn bytes.now word }
    ensures value { result.now ≡ text_of bytes.now word }
    ensures ascii { IsAscii result.now }
{
    &bytes[word.from as usize..word.upto as usize]
}

/// A copy of a word that is ASCII.
pub fn copy_of(alloc: Global, word: &[u8]) -> Result<Text, NoMemory>
    requires { IsAscii word.now }
    ensures { IfOk result (λ t. t ≡ word.now) }
{
    match std::str::from_utf8(word) {
        Ok(word) => Text::copy_of(alloc, word),
        Err(_) => unreachable!(),
    }
}
