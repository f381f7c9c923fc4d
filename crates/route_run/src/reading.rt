//! A schedule's text.

ghost use Rattle.std.specs.Prelude.{◌≡◌, ◌<◌, ◌≤◌, ◌^◌, All, List, [], IfOk, IfErr, length};
ghost use Rattle.cfg_ast.specs.text.Lines.{words_of};
ghost use Rattle.numbered_names.specs.NamePlaces.{ArePlacesOf};
ghost use Rattle.route_run.specs.Reading.{answer_with, RefusesLine};
ghost use Rattle.route_run.specs.Schedules.{LineWord, activation_of, run_of, schedule_of_text, ReadsSchedule};

use crate::schedule::{Activation, ScheduleRefusal};
use base_kit::{List, Text};
use cfg_lex::{newline_from, next_word, without_return};
use numbered_names::NamePlaces;
use std::alloc::Global;

// What a word activates.
fn activation_of(places: &NamePlaces, names: &[Text], word: &[u8]) -> Option<Activation>
    requires places { ArePlacesOf (λ text. text) places.now names.now }
    requires few { length names.now < 2 ^ 32 }
    ensures { result ≡ activation_of names.now word.now }
{
    if word == b"*".as_slice() {
        return Some(Activation::Round);
    }
    match places.number_of_word(word) {
        Some(router) => Some(Activation::One(router)),
        None => None,
    }
}

// Puts the activations of a line last, or says that a word of it is none.
fn read_line(
    places: &NamePlaces,
    names: &[Text],
    line: u32,
    text: &[u8],
    schedule: &mut List<Activation>,
) -> Result<(), ScheduleRefusal>
    requires places { ArePlacesOf (λ text. text) places.now names.now }
    requires few { length names.now < 2 ^ 32 }
    ensures read { IfOk result (λ _. (later : List LineWord) → answer_with names.now schedule.old line (words_of text.now) later ≡ answer_with names.now schedule.new line [] later) }
    ensures refused { IfErr result (RefusesLine names.now schedule.old line (words_of text.now)) }
{
    let mut rest = text;
    while let Some((word, behind)) = next_word(rest) {
        match activation_of(places, names, word) {
            Some(activation) => schedule.push(activation)?,
            None => return Err(ScheduleRefusal::UnknownRouter(line)),
        }
        rest = behind;
    }
    Ok(())
}

/// The activations of a text, for routers of these names: its words in order, `*` a round and a name the
/// activation of its router.
///
/// # Errors
///
/// `UnknownRouter` with the line of the first word that is neither. `Memory` where memory ran out.
pub fn read_schedule(
    alloc: Global,
    bytes: &[u8],
    names: &List<Text>,
) -> Result<List<Activation>, ScheduleRefusal>
    requires short { length bytes.now ≤ 16777216 }
    requires few { length names.now < 2 ^ 32 }
    ensures exact { ReadsSchedule result (schedule_of_text names.now bytes.now) }
    ensures within { IfOk result (λ schedule. All (λ u. u < length names.now) (run_of (length names.now) schedule)) }
{
    let names = names.as_slice();
    let places = NamePlaces::of(alloc, names)?;
    let mut schedule = List::new(alloc);
    let mut line = 0;
    let mut from = 0;
    while from < bytes.len() {
        line += 1;
        let end = newline_from(bytes, from);
        let upto = without_return(bytes, from, end);
        match read_line(&places, names, line, &bytes[from..upto], &mut schedule) {
            Ok(()) => {}
            Err(refusal) => return Err(refusal),
        }
        from = end + 1;
    }
    Ok(schedule)
}
