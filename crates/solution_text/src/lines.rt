//! A solution's text, line by line.

ghost use Rattle.std.specs.Prelude.{◌≡◌, ◌<◌, ◌≤◌, ◌^◌, ◌∷◌, length};
ghost use Rattle.cfg_ast.specs.text.Lines.{words_of};
ghost use Rattle.numbered_names.specs.NamePlaces.{AreBelow, place_in};
ghost use Rattle.solution_text.specs.Answers.{ReadsSolution};
ghost use Rattle.solution_text.specs.Forms.{named_label_of};
ghost use Rattle.solution_text.specs.Solutions.{is_foreign};
ghost use Rattle.solution_text.specs.Steps.{with_label, with_named_label, with_words};

use crate::forms::label_form;
use crate::refusal::{SolKind, SolRefusal};
use crate::said::Said;
use base_kit::Protocol;
use cfg_lex::next_word;
use cfg_words::is_router_name;
use numbered_names::NamePlaces;
use srp_core::Route;
use std::alloc::Global;

fn is_foreign(protocol: Protocol, label: &Option<Route>) -> bool
    ensures { result ≡ is_foreign protocol label.now }
{
    match (protocol, label) {
        (Protocol::Bgp, Some(Route::Ospf { .. })) => true,
        (Protocol::Bgp, Some(Route::Bgp { .. })) => false,
        (Protocol::Bgp, None) => false,
        (Protocol::Ospf, Some(Route::Bgp { .. })) => true,
        (Protocol::Ospf, Some(Route::Ospf { .. })) => false,
        (Protocol::Ospf, None) => false,
    }
}

// A router at that place has the label, by the line of that number.
fn with_label(
    protocol: Protocol,
    line: u32,
    said: Said,
    router: u32,
    label: Option<Route>,
) -> Result<Said, SolRefusal>
    requires { router < length said.seen }
    ensures { result ≡ with_label protocol line said router label }
{
    if said.has_line(router) {
        return Err(SolRefusal::At {
            line,
            kind: SolKind::Repeated,
        });
    }
    if is_foreign(protocol, &label) {
        return Err(SolRefusal::At {
            line,
            kind: SolKind::WrongProtocol,
        });
    }
    Ok(said.with(router, label))
}

// The line that begins with this word, and goes on so.
#[tactic(auto, using(crate::proofs::Exact::exact_reads), unfolding(crate::specs::Forms::named_label_of))]
fn with_saying(
    alloc: Global,
    protocol: Protocol,
    places: &NamePlaces,
    line: u32,
    said: Said,
    name: &[u8],
    text: &[u8],
) -> Result<Said, SolRefusal>
    requires within { AreBelow places.now (length said.seen) }
    requires few { AreBelow places.now (2 ^ 32) }
    ensures { ReadsSolution result (with_named_label protocol (place_in places.now) line said (named_label_of (name.now ∷ words_of text.now))) }
{
    let bad_form = SolRefusal::At {
        line,
        kind: SolKind::BadForm,
    };
    let Some((word, text)) = next_word(text) else {
        return Err(bad_form);
    };
    if !is_router_name(name) {
        return Err(bad_form);
    }
    let Some(label) = label_form(alloc, word, text)? else {
        return Err(bad_form);
    };
    match places.number_of_word(name) {
        Some(router) => with_label(protocol, line, said, router, label),
        None => Err(SolRefusal::At {
            line,
            kind: SolKind::UnknownRouter,
        }),
    }
}

/// What is said so far, the line of this number included.
pub(crate) fn with_line(
    alloc: Global,
    protocol: Protocol,
    places: &NamePlaces,
    line: u32,
    said: Said,
    text: &[u8],
) -> Result<Said, SolRefusal>
    requires within { AreBelow places.now (length said.seen) }
    requires few { AreBelow places.now (2 ^ 32) }
    ensures { ReadsSolution result (with_words protocol (place_in places.now) line said (words_of text.now)) }
{
    match next_word(text) {
        Some((name, text)) => with_saying(alloc, protocol, places, line, said, name, text),
        None => Ok(said),
    }
}
