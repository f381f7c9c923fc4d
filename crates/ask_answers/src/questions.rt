//! A file of questions over a network.

ghost use Rattle.std.specs.Prelude.{◌≡◌, ◌≤◌, IfOk, All, length, string_bytes};
ghost use Rattle.endings.specs.Findings.{Finds};
ghost use Rattle.solution_answers.specs.Writing.{Writes, WritesEach};
ghost use Rattle.ask_answers.specs.Atlases.{IsAtlasOf};
ghost use Rattle.ask_answers.specs.Questions.{question_line, IsOfQuestions};
ghost use Rattle.ask_answers.specs.Reading.{AreAskedReports, HasSpan, IsAskedReport};

use crate::atlas::Atlas;
use crate::reading::{AskedLine, asked_lines};
use crate::reports::{both, put_report};
use base_kit::NoMemory;
use cfg_check::Checked;
use endings::Finding;
use solution_answers::put;
use std::alloc::{AllocError, Global};

fn question_line(alloc: Global, line: u32) -> Result<String, AllocError>
    ensures { IfOk result (λ text. string_bytes text ≡ question_line line) }
{
    let text = format!(in alloc; "question {line}\n")?;
    Ok(text)
}

// Appends the line of a question, and what its request writes without labels. Whether every answer is `yes`.
fn put_asked(
    alloc: Global,
    bytes: &mut Vec<u8>,
    checked: &Checked,
    atlas: &mut Atlas,
    asked: &AskedLine,
) -> Result<bool, NoMemory>
    requires atlas { IsAtlasOf checked.now.network atlas.old }
    requires span { HasSpan checked.now.network asked.now }
    ensures atlas { IsAtlasOf checked.now.network atlas.new }
    ensures report { IfOk result (Writes (IsAskedReport checked.now.network asked.now) bytes.old.items bytes.new.items) }
{
    let head = question_line(alloc, asked.line)?;
    put(bytes, head.as_bytes())?;
    let all = put_report(
        alloc,
        bytes,
        checked,
        atlas,
        &asked.request,
        asked.span,
        false,
    )?;
    Ok(all)
}

// Appends the reports of all lines. Whether every answer is `yes`.
fn put_all_asked(
    alloc: Global,
    bytes: &mut Vec<u8>,
    checked: &Checked,
    atlas: &mut Atlas,
    asked: &[AskedLine],
) -> Result<bool, NoMemory>
    requires atlas { IsAtlasOf checked.now.network atlas.old }
    requires spans { All (HasSpan checked.now.network) asked.now }
    ensures { IfOk result (WritesEach (IsAskedReport checked.now.network) asked.now bytes.old.items bytes.new.items) }
{
    let mut all = true;
    for one in asked {
        let yes = put_asked(alloc, bytes, checked, atlas, one)?;
        all = both(all, yes);
    }
    Ok(all)
}

// The reports of all lines.
fn reports(alloc: Global, checked: &Checked, mut atlas: Atlas, asked: &[AskedLine]) -> Finding
    requires atlas { IsAtlasOf checked.now.network atlas }
    requires spans { All (HasSpan checked.now.network) asked.now }
    ensures { Finds result (AreAskedReports checked.now.network asked.now) ⊥ ⊥ }
{
    let mut bytes = Vec::new(alloc);
    match put_all_asked(alloc, &mut bytes, checked, &mut atlas, asked) {
        Ok(all) => Finding::Output { bytes, all },
        Err(NoMemory) => Finding::NoMemory,
    }
}

/// What the lines of a file of questions write, in order, or why the first line at fault refuses the file.
pub fn answers(alloc: Global, checked: &Checked, text: &[u8]) -> Finding
    requires { length text.now ≤ 16777216 }
    ensures { Finds result (IsOfQuestions checked.now.network text.now) ⊥ ⊥ }
{
    let Ok(atlas) = Atlas::of(alloc, checked) else {
        return Finding::NoMemory;
    };
    match asked_lines(alloc, checked, &atlas, text) {
        Ok(Ok(asked)) => reports(alloc, checked, atlas, asked.as_slice()),
        Ok(Err(reason)) => Finding::Refusal(reason.into_bytes()),
        Err(NoMemory) => Finding::NoMemory,
    }
}
