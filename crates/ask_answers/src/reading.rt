//! The lines of a file of questions, read over a network.

ghost use Rattle.std.specs.Prelude.{◌≡◌, ◌≤◌, IfOk, length, string_bytes};
ghost use Rattle.cfg_ast.specs.text.Members.{AreSpansIn};
ghost use Rattle.cfg_ast.specs.text.TextLines.{text_line};
ghost use Rattle.ask_answers.specs.Atlases.{IsAtlasOf};
ghost use Rattle.ask_answers.specs.Questions.{questions_reason};
ghost use Rattle.ask_answers.specs.Reading.{AreReadLines, IsReadLine};
ghost use Rattle.ask_words.specs.Lines.{asking_lines};

use crate::atlas::Atlas;
use crate::requests::asked_span;
use ask_names::Span;
use ask_words::{Request, asks, read_line};
use base_kit::{List, NoMemory};
use cfg_ast::Line;
use cfg_check::Checked;
use cfg_lex::every_line;
use std::alloc::{AllocError, Global};

/// What a line of a file asks: its number, the request, and the places of the classes that are asked.
#[derive(Drop)]
pub struct AskedLine {
    pub line: u32,
    pub request: Request,
    pub span: Span,
}

// Why a file of questions is refused: the line at fault, and the kind of its fault.
fn reason(alloc: Global, line: u32, kind: &str) -> Result<String, AllocError>
    ensures { IfOk result (λ reason. string_bytes reason ≡ questions_reason line kind.now) }
{
    let reason = format!(in alloc; "questions line {line}: {kind}")?;
    Ok(reason)
}

// What a line asks, or why it refuses the file.
fn asked_line(
    alloc: Global,
    checked: &Checked,
    atlas: &Atlas,
    text: &[u8],
    line: &Line,
) -> Result<Result<AskedLine, String>, NoMemory>
    requires atlas { IsAtlasOf checked.now.network atlas.now }
    requires spans { AreSpansIn text.now line.now }
    ensures { IfOk result (IsReadLine checked.now.network (text_line text.now line.now)) }
{
    let number = line.number;
    let Some(request) = read_line(alloc, text, line)? else {
        let reason = reason(alloc, number, "BadForm")?;
        return Ok(Err(reason));
    };
    match asked_span(alloc, checked, atlas, &request)? {
        Ok(span) => Ok(Ok(AskedLine {
            line: number,
            request,
            span,
        })),
        Err(fault) => {
            drop(request);
            let reason = reason(alloc, number, fault.kind())?;
            Ok(Err(reason))
        }
    }
}

/// What each line of a text asks, or why the first line at fault refuses the text.
///
/// # Errors
/// Out of memory.
pub(crate) fn asked_lines(
    alloc: Global,
    checked: &Checked,
    atlas: &Atlas,
    text: &[u8],
) -> Result<Result<List<AskedLine>, String>, NoMemory>
    requires atlas { IsAtlasOf checked.now.network atlas.now }
    requires short { length text.now ≤ 16777216 }
    ensures { IfOk result (AreReadLines checked.now.network (asking_lines text.now)) }
{
    let found = every_line(alloc, text)?;
    let lines = found.as_slice();
    let mut asked = List::new(alloc);
    for line in lines {
        if asks(text, line) {
            match asked_line(alloc, checked, atlas, text, line)? {
                Ok(one) => asked.push(one)?,
                Err(reason) => return Ok(Err(reason)),
            }
        }
    }
    Ok(Ok(asked))
}
