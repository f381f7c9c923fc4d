//! The members that a text notes for each router.

ghost use Rattle.std.specs.Prelude.{◌≡◌, ◌≤◌, IfOk, All, length, map};
ghost use Rattle.cfg_ast.specs.text.Lines.{text_of, texts};
ghost use Rattle.cfg_ast.specs.text.TextLines.{text_line};
ghost use Rattle.cfg_ast.specs.text.Members.{IsSpanIn, AreSpansIn, member_on, members_in, members_of_text};
ghost use Rattle.std.specs.List.{AllByRecursion};
ghost use Rattle.cfg_parse.specs.MemberSteps.{with_member, with_member_line};

use crate::end_line::is_end_line;
use base_kit::{List, NoMemory, Text};
use cfg_ast::{Line, Span};
use cfg_lex::every_line;
use cfg_words::{copy_of, is_router_name};
use std::alloc::Global;

// The names of the routers that have ended, and those of the one that has not.
#[derive(Drop)]
struct Found {
    ended: List<List<Text>>,
    names: List<Text>,
}

fn word<'a>(bytes: &'a [u8], span: &Span) -> &'a [u8]
    requires { IsSpanIn bytes.now span.now }
    ensures { result.now ≡ text_of bytes.now span.now }
{
    &bytes[span.from as usize..span.upto as usize]
}

// The name on a member line.
#[tactic(auto, unfolding(cfg_ast::specs::text::Members::member_on), using(crate::proofs::MemberLines::router_name_is_ascii))]
fn member_on(alloc: Global, bytes: &[u8], words: &[Span]) -> Result<Option<Text>, NoMemory>
    requires { AllByRecursion (IsSpanIn bytes.now) words.now }
    ensures { IfOk result (λ name. name ≡ member_on (texts bytes.now words.now)) }
{
    let [mark, kind, name] = words else {
        return Ok(None);
    };
    let name = word(bytes, name);
    if word(bytes, mark) == b"!".as_slice()
        && word(bytes, kind) == b"member".as_slice()
        && is_router_name(name)
    {
        let name = copy_of(alloc, name)?;
        return Ok(Some(name));
    }
    Ok(None)
}

fn with_member(
    alloc: Global,
    names: List<Text>,
    bytes: &[u8],
    line: &Line,
) -> Result<List<Text>, NoMemory>
    requires { AreSpansIn bytes.now line.now }
    ensures { IfOk result (λ all. all ≡ with_member names (text_line bytes.now line.now)) }
{
    let mut names = names;
    match member_on(alloc, bytes, line.words.as_slice())? {
        Some(name) => names.push(name)?,
        None => {}
    }
    Ok(names)
}

fn with_line(alloc: Global, found: Found, bytes: &[u8], line: &Line) -> Result<Found, NoMemory>
    requires { AreSpansIn bytes.now line.now }
    ensures { IfOk result (λ more. more ≡ with_member_line found (text_line bytes.now line.now)) }
{
    let Found { mut ended, names } = found;
    if is_end_line(bytes, line) {
        ended.push(names)?;
        let names = List::new(alloc);
        return Ok(Found { ended, names });
    }
    let names = with_member(alloc, names, bytes, line)?;
    Ok(Found { ended, names })
}

#[tactic(auto, using(crate::proofs::MemberLines::members_start, crate::proofs::MemberLines::members_step, crate::proofs::MemberLines::members_end))]
fn members_in(alloc: Global, bytes: &[u8], lines: &[Line]) -> Result<List<List<Text>>, NoMemory>
    requires { All (AreSpansIn bytes.now) lines.now }
    ensures { IfOk result (λ members. members ≡ members_in (map (text_line bytes.now) lines.now)) }
{
    let mut found = Found {
        ended: List::new(alloc),
        names: List::new(alloc),
    };
    for line in lines {
        found = with_line(alloc, found, bytes, line)?;
    }
    let Found { ended, .. } = found;
    Ok(ended)
}

/// One list for each top line `end`, in order: the names on the member lines between the `end` before it
/// and this one. A member line has the words `!`, `member` and the name of a router. The text may have
/// any faults.
#[tactic(auto, unfolding(cfg_ast::specs::text::Members::members_of_text))]
pub fn read_members(alloc: Global, bytes: &[u8]) -> Result<List<List<Text>>, NoMemory>
    requires { length bytes.now ≤ 16777216 }
    ensures { IfOk result (λ members. members ≡ members_of_text bytes.now) }
{
    let lines = every_line(alloc, bytes)?;
    members_in(alloc, bytes, lines.as_slice())
}
