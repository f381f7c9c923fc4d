//! A text read into a network.

ghost use Rattle.std.specs.Prelude.{◌≡◌, ◌≤◌, Some, Ok, true, is_ok, length};
ghost use Rattle.cfg_ast.specs.text.Answers.{Gives};
ghost use Rattle.cfg_ast.specs.text.Lines.{IsLineIn, lines_of};
ghost use Rattle.cfg_ast.specs.text.TextLines.{text_line};
ghost use Rattle.cfg_ast.specs.text.Reading.{at_start, step_policy, step_router, step_top, step_inner, step, end_at, network_of_lines, network_of_text};
ghost use Rattle.cfg_stanzas.specs.Changes.{Changes};
ghost use Rattle.cfg_parse.specs.Rest.{answer_of, state_after};

use crate::draft::{State, at_start, close};
use crate::end_line::is_end_line;
use crate::policy::{is_policy_line, take_policy};
use crate::router_names::hashing_from;
use crate::stanza::take_inner;
use crate::top::take_top;
use base_kit::List;
use cfg_ast::{Kind, Line, Network, PolicyScope, ReadRefusal, Scope};
use cfg_lex::{Place, line_from, sound};
use cfg_stanzas::{policy_said_in, said_in};
use std::alloc::Global;

#[tactic(auto, unfolding(cfg_ast::specs::text::Reading::step_router))]
fn step_router(
    alloc: Global,
    bytes: &[u8],
    line: &Line,
    state: &mut State,
) -> Result<(), ReadRefusal>
    requires { IsLineIn bytes.now line.now }
    ensures { Changes result state.new (step_router state.old (text_line bytes.now line.now)) }
{
    let item = said_in(alloc, bytes, line, Scope::Top)?;
    close(alloc, &mut state.draft)?;
    take_top(alloc, line.number, item, state)
}

#[tactic(auto, unfolding(cfg_ast::specs::text::Reading::step_policy))]
fn step_policy(
    alloc: Global,
    bytes: &[u8],
    line: &Line,
    state: &mut State,
) -> Result<(), ReadRefusal>
    requires { IsLineIn bytes.now line.now }
    ensures { Changes result state.new (step_policy state.old (text_line bytes.now line.now)) }
{
    let item = policy_said_in(alloc, bytes, line, PolicyScope::Top)?;
    close(alloc, &mut state.draft)?;
    take_policy(alloc, line.number, item, &mut state.draft)?;
    Ok(())
}

fn step_top(alloc: Global, bytes: &[u8], line: &Line, state: &mut State) -> Result<(), ReadRefusal>
    requires { IsLineIn bytes.now line.now }
    ensures { Changes result state.new (step_top state.old (text_line bytes.now line.now)) }
{
    if is_policy_line(bytes, line.words.as_slice()) {
        step_policy(alloc, bytes, line, state)
    } else {
        step_router(alloc, bytes, line, state)
    }
}

fn step_inner(
    alloc: Global,
    bytes: &[u8],
    line: &Line,
    state: &mut State,
) -> Result<(), ReadRefusal>
    requires { IsLineIn bytes.now line.now }
    ensures { Changes result state.new (step_inner state.old (text_line bytes.now line.now)) }
{
    let draft = &mut state.draft;
    take_inner(alloc, bytes, line, &mut draft.stanza)?;
    Ok(())
}

#[tactic(auto, unfolding(cfg_ast::specs::text::Reading::step))]
fn step_line(alloc: Global, bytes: &[u8], line: &Line, state: &mut State) -> Result<(), ReadRefusal>
    requires { IsLineIn bytes.now line.now }
    ensures { Changes result state.new (step state.old (text_line bytes.now line.now)) }
{
    if line.indent == 0 {
        step_top(alloc, bytes, line, state)
    } else {
        step_inner(alloc, bytes, line, state)
    }
}

// At the line `end`, says how the names of the next router are hashed, whose lines begin at a place.
#[tactic(auto, using(crate::proofs::Rest::words_are_spans))]
fn look_ahead(bytes: &[u8], line: &Line, next: usize, state: &mut State)
    requires { IsLineIn bytes.now line.now }
    ensures { state.new ≡ state.old }
{
    if is_end_line(bytes, line) {
        state.draft.hashing = hashing_from(bytes, next);
    }
}

// Takes a line. The next one begins at a place.
fn step(
    alloc: Global,
    bytes: &[u8],
    line: &Line,
    next: usize,
    state: &mut State,
) -> Result<(), ReadRefusal>
    requires { IsLineIn bytes.now line.now }
    ensures { Changes result state.new (step state.old (text_line bytes.now line.now)) }
{
    look_ahead(bytes, line, next, state);
    step_line(alloc, bytes, line, state)
}

// The number of a line that is not the top line `end`.
#[tactic(auto, using(crate::proofs::Rest::words_are_spans))]
fn unended(bytes: &[u8], last: &Line) -> Option<u32>
    requires { IsLineIn bytes.now last.now }
    ensures { answer_of result ≡ end_at (Some (text_line bytes.now last.now)) }
{
    if is_end_line(bytes, last) {
        return None;
    }
    Some(last.number)
}

// The text must end with the top line `end`, if it has a line.
fn ended(last: Option<u32>) -> Result<(), ReadRefusal>
    ensures { result ≡ answer_of last }
{
    match last {
        None => Ok(()),
        Some(line) => Err(ReadRefusal::At {
            line,
            kind: Kind::NoEnd,
        }),
    }
}

// Takes all lines, read one by one. The caller owns the state, so that no exit here has to drop it.
fn read_lines(alloc: Global, bytes: &[u8], state: &mut State) -> Result<(), ReadRefusal>
    requires short { length bytes.now ≤ 16777216 }
    requires sound { is_ok (lines_of bytes.now) ≡ true }
    ensures { Changes result state.new (state_after bytes.now state.old (Ok tt) (lines_of bytes.now)) }
{
    let mut place = Place { number: 0, from: 0 };
    let mut last = None;
    let mut spare = List::new(alloc);
    while let Some((line, next)) = line_from(bytes, place, spare)? {
        step(alloc, bytes, &line, next.from, state)?;
        last = unended(bytes, &line);
        place = next;
        spare = line.words;
    }
    ended(last)
}

// The state after all lines.
fn all_lines(alloc: Global, bytes: &[u8]) -> Result<State, ReadRefusal>
    requires short { length bytes.now ≤ 16777216 }
    requires sound { is_ok (lines_of bytes.now) ≡ true }
    ensures { Gives result (state_after bytes.now at_start (Ok tt) (lines_of bytes.now)) }
{
    let mut state = at_start(alloc, hashing_from(bytes, 0));
    if let Err(refusal) = read_lines(alloc, bytes, &mut state) {
        // It goes whole to `drop`, so that the proof does not take it apart.
        drop(state);
        return Err(refusal);
    }
    Ok(state)
}

/// The network of a text of running configurations.
///
/// # Errors
///
/// The first line with a fault of its own decides (`NotAscii`, `LineTooLong`, `TooManyLines`). If there
/// is none, the first line decides that has one of the following faults, by itself or by the lines
/// before it. If it has several, the first in this order decides: `Misplaced` for an indented line
/// without a stanza, `UnknownLine`, `Unsupported`, `BadForm`, `WellKnown`, `Misplaced` for a line of a
/// neighbour before its `remote-as`, `Repeated`, `NoHostname`. Last comes `NoEnd`, at the last line that
/// is not skipped. `Memory` where memory ran out.
#[tactic(auto, unfolding(cfg_ast::specs::text::Reading::network_of_text, cfg_ast::specs::text::Reading::network_of_lines))]
pub fn read_network(alloc: Global, bytes: &[u8]) -> Result<Network, ReadRefusal>
    requires { length bytes.now ≤ 16777216 }
    ensures { Gives result (network_of_text bytes.now) }
{
    sound(bytes)?;
    let State { routers, draft } = all_lines(alloc, bytes)?;
    drop(draft);
    Ok(Network { routers })
}
