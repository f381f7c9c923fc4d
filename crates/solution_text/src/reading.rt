//! Labels read from a text.

ghost use Rattle.std.specs.Prelude.{◌≡◌, ◌+◌, ◌<◌, ◌≤◌, ◌^◌, ℕ, IfOk, Some, length, map};
ghost use Rattle.cfg_ast.specs.text.TextLines.{text_line};
ghost use Rattle.cfg_ast.specs.text.Members.{all_lines_of};
ghost use Rattle.srp_core.specs.declared.route.Route.{Route};
ghost use Rattle.srp_core.specs.Routes.{IsRouteOf};
ghost use Rattle.srp_core.specs.Stability.{label};
ghost use Rattle.solution_text.specs.Answers.{ReadsSolution};
ghost use Rattle.solution_text.specs.Solutions.{labels_of_text};
ghost use Rattle.base_kit.specs.Names.{AreApart};
ghost use Rattle.numbered_names.specs.NamePlaces.{AreBelow, place_in};
ghost use Rattle.solution_text.specs.Steps.{nothing_said, answer_from};

use crate::lines::with_line;
use crate::refusal::{SolKind, SolRefusal};
use crate::said::Said;
use base_kit::{List, Protocol, Text};
use cfg_lex::{newline_from, without_return};
use numbered_names::NamePlaces;
use srp_core::Labels;
use std::alloc::Global;

// The labels that the lines give to so many routers, whose names have these places.
fn read_lines(
    alloc: Global,
    bytes: &[u8],
    protocol: Protocol,
    places: &NamePlaces,
    count: usize,
) -> Result<Labels, SolRefusal>
    requires short { length bytes.now ≤ 268435456 }
    requires within { AreBelow places.now count }
    requires few { AreBelow places.now (2 ^ 32) }
    ensures { ReadsSolution result (answer_from protocol (place_in places.now) (length (all_lines_of bytes.now) + 1) (map (text_line bytes.now) (all_lines_of bytes.now)) (nothing_said count)) }
{
    let mut said = Said::nothing(alloc, count)?;
    let mut line = 0;
    let mut from = 0;
    while from < bytes.len() {
        line += 1;
        let end = newline_from(bytes, from);
        let upto = without_return(bytes, from, end);
        match with_line(alloc, protocol, places, line, said, &bytes[from..upto]) {
            Ok(more) => said = more,
            Err(refusal) => return Err(refusal),
        }
        from = end + 1;
    }
    match said.into_labels() {
        Some(labels) => Ok(labels),
        None => Err(SolRefusal::At {
            line: line + 1,
            kind: SolKind::Missing,
        }),
    }
}

/// The labels of a text for routers of these names, which all differ: one label for each, in their
/// order. A line is `NAME none`, `NAME cost C`, or `NAME bgp LP path AS .. comms C ..` with communities
/// in strictly ascending order, none of them well-known; a word `AS*N` of a path, N from 2 to 11, stands
/// for N times that number. Lines without words are passed over.
///
/// # Errors
///
/// The first line with a fault decides: `BadForm` for a line of no such form, else `UnknownRouter` for
/// a name that is not given, else `Repeated` for one that an earlier line has, else `WrongProtocol` for
/// a route of the other protocol. Where no line has one, `Missing` at the line behind the last, if some
/// router has no line. `Memory` where memory ran out.
pub fn read_labels(
    alloc: Global,
    bytes: &[u8],
    protocol: Protocol,
    names: &List<Text>,
) -> Result<Labels, SolRefusal>
    requires short { length bytes.now ≤ 268435456 }
    requires few { length names.now < 2 ^ 32 }
    requires names { AreApart names.now }
    ensures exact { ReadsSolution result (labels_of_text protocol names.now bytes.now) }
    ensures total { IfOk result (λ labels. length labels ≡ length names.now) }
    ensures routes { IfOk result (λ labels. (u : ℕ) (r : Route) → label labels u ≡ Some r → IsRouteOf protocol r) }
{
    let places = NamePlaces::of(alloc, names.as_slice())?;
    match read_lines(alloc, bytes, protocol, &places, names.len()) {
        Ok(labels) => {
            let _known = labels.as_slice();
            Ok(labels)
        }
        Err(refusal) => Err(refusal),
    }
}
