//! What a line says, after those before it.

ghost use Rattle.std.specs.Prelude.{◌≡◌, ◌<◌, ◌^◌, ◌==◌, [], IfOk, None, length, option_map};
ghost use Rattle.std.specs.List.{find};
ghost use Rattle.cfg_ast.specs.text.Lines.{words_of};
ghost use Rattle.numbered_names.specs.NamePlaces.{AreBelow, place_in};
ghost use Rattle.cut_certificate.specs.Answers.{Steps};
ghost use Rattle.cut_certificate.specs.Forms.{closing_form, group_form, head_form, split_form};
ghost use Rattle.cut_certificate.specs.Moves.{AreIncoming};
ghost use Rattle.cut_certificate.specs.Outgoing.{AreIndexed};
ghost use Rattle.cut_certificate.specs.Texts.{edge_named, routers_named, with_edge, with_line, with_members, with_saying};

use crate::certificate::Split;
use crate::forms::{is_end, is_group, is_head, split_form};
use crate::outgoing::Placed;
use crate::refusal::{CutKind, Stop};
use crate::standing::{Stage, Standing};
use base_kit::{ActGraph, NoMemory};
use cfg_lex::next_word;
use numbered_names::NamePlaces;
use std::alloc::Global;

fn with_head(standing: Standing, line: &[u8]) -> Result<Standing, CutKind>
    ensures { result ≡ with_saying [] (λ name. None) standing (head_form (words_of line.now)) }
{
    if !is_head(line) {
        return Err(CutKind::BadForm);
    }
    standing.with_head()
}

// The edge of the list over that link.
#[tactic(auto, using(crate::proofs::Scans::find_here, crate::proofs::Scans::find_next, crate::proofs::Scans::find_none))]
fn edge_over(list: &[Placed], link: u32) -> Option<Placed>
    ensures { result ≡ find (λ p. p.edge.link == link) list.now }
{
    for p in list {
        if p.edge.link == link {
            return Some(*p);
        }
    }
    None
}

// The split by the edge of that router and link.
fn with_edge(
    alloc: Global,
    graph: &ActGraph,
    outgoing: &[Vec<Placed>],
    incoming: &[Vec<Placed>],
    standing: Standing,
    block: u32,
    by: u32,
    router: u32,
    link: u32,
) -> Result<Standing, Stop>
    requires stage { standing.stage ≡ Stage.Splitting }
    requires index { AreIndexed graph.now outgoing.now }
    requires incoming { AreIncoming graph.now incoming.now }
    requires total { length standing.blocks.numbers ≡ graph.now.count }
    requires router { router < graph.now.count }
    ensures { Steps result (with_edge graph.now.edges standing block by (edge_named graph.now.edges router link)) }
{
    let list = outgoing[router as usize].as_slice();
    match edge_over(list, link) {
        Some(found) => {
            let edge = found.place;
            let split = Split { block, by, edge };
            standing.with_split(alloc, graph, outgoing, incoming, split, found.edge.act)
        }
        None => Err(Stop::Fault(CutKind::NoEdge)),
    }
}

fn with_split(
    alloc: Global,
    graph: &ActGraph,
    outgoing: &[Vec<Placed>],
    incoming: &[Vec<Placed>],
    places: &NamePlaces,
    standing: Standing,
    line: &[u8],
) -> Result<Standing, Stop>
    requires index { AreIndexed graph.now outgoing.now }
    requires incoming { AreIncoming graph.now incoming.now }
    requires within { AreBelow places.now graph.now.count }
    requires total { length standing.blocks.numbers ≡ graph.now.count }
    requires few { length standing.blocks.numbers < 2 ^ 32 }
    ensures { Steps result (with_saying graph.now.edges (place_in places.now) standing (split_form (words_of line.now))) }
{
    let Some((block, by, name, link)) = split_form(line) else {
        return Err(Stop::Fault(CutKind::BadForm));
    };
    match standing.stage() {
        Stage::Splitting => {}
        Stage::Opening | Stage::Naming | Stage::Closed => {
            return Err(Stop::Fault(CutKind::BadForm));
        }
    }
    match places.number_of_word(name) {
        Some(router) => with_edge(
            alloc, graph, outgoing, incoming, standing, block, by, router, link,
        ),
        None => Err(Stop::Fault(CutKind::UnknownRouter)),
    }
}

// The routers of these names, if each is one.
fn routers_named(
    alloc: Global,
    places: &NamePlaces,
    line: &[u8],
) -> Result<Option<Vec<u32>>, NoMemory>
    requires { AreBelow places.now (2 ^ 32) }
    ensures { IfOk result (λ found. option_map (λ v. v.items) found ≡ routers_named (place_in places.now) (words_of line.now)) }
{
    let mut routers = Vec::new(alloc);
    let mut rest = line;
    while let Some((name, more)) = next_word(rest) {
        match places.number_of_word(name) {
            Some(router) => routers.push(router)?,
            None => return Ok(None),
        }
        rest = more;
    }
    Ok(Some(routers))
}

fn with_names(
    alloc: Global,
    places: &NamePlaces,
    standing: Standing,
    line: &[u8],
) -> Result<Standing, Stop>
    requires places { AreBelow places.now (2 ^ 32) }
    requires few { length standing.blocks.numbers < 2 ^ 32 }
    ensures { Steps result (with_members standing (routers_named (place_in places.now) (words_of line.now))) }
{
    match routers_named(alloc, places, line)? {
        Some(members) => standing.with_members(alloc, &members),
        None => Err(Stop::Fault(CutKind::UnknownRouter)),
    }
}

fn with_group(
    alloc: Global,
    places: &NamePlaces,
    standing: Standing,
    line: &[u8],
) -> Result<Standing, Stop>
    requires places { AreBelow places.now (2 ^ 32) }
    requires few { length standing.blocks.numbers < 2 ^ 32 }
    ensures { Steps result (with_saying [] (place_in places.now) standing (group_form (words_of line.now))) }
{
    if !is_group(line) {
        return Err(Stop::Fault(CutKind::BadForm));
    }
    match standing.stage() {
        Stage::Splitting | Stage::Naming => with_names(alloc, places, standing, line),
        Stage::Opening | Stage::Closed => Err(Stop::Fault(CutKind::BadForm)),
    }
}

fn with_end(
    alloc: Global,
    graph: &ActGraph,
    outgoing: &[Vec<Placed>],
    standing: Standing,
    line: &[u8],
) -> Result<Standing, Stop>
    requires index { AreIndexed graph.now outgoing.now }
    requires total { length standing.blocks.numbers ≡ graph.now.count }
    requires few { length standing.blocks.numbers < 2 ^ 32 }
    ensures { Steps result (with_saying graph.now.edges (λ name. None) standing (closing_form (words_of line.now))) }
{
    if !is_end(line) {
        return Err(Stop::Fault(CutKind::BadForm));
    }
    match standing.stage() {
        Stage::Splitting | Stage::Naming => standing.closed(alloc, graph, outgoing),
        Stage::Opening | Stage::Closed => Err(Stop::Fault(CutKind::BadForm)),
    }
}

/// How far the certificate has been read, this line included.
#[tactic(auto, unfolding(crate::specs::Forms::certificate_line_of))]
pub(crate) fn with_line(
    alloc: Global,
    graph: &ActGraph,
    outgoing: &[Vec<Placed>],
    incoming: &[Vec<Placed>],
    places: &NamePlaces,
    standing: Standing,
    line: &[u8],
) -> Result<Standing, Stop>
    requires index { AreIndexed graph.now outgoing.now }
    requires incoming { AreIncoming graph.now incoming.now }
    requires within { AreBelow places.now graph.now.count }
    requires total { length standing.blocks.numbers ≡ graph.now.count }
    requires few { length standing.blocks.numbers < 2 ^ 32 }
    ensures { Steps result (with_line graph.now.edges (place_in places.now) standing (words_of line.now)) }
{
    let Some((word, rest)) = next_word(line) else {
        return Ok(standing);
    };
    if word == b"bonsai".as_slice() {
        return Ok(with_head(standing, rest)?);
    }
    if word == b"split".as_slice() {
        return with_split(alloc, graph, outgoing, incoming, places, standing, rest);
    }
    if word == b"group".as_slice() {
        return with_group(alloc, places, standing, rest);
    }
    if word == b"end".as_slice() {
        return with_end(alloc, graph, outgoing, standing, rest);
    }
    Err(Stop::Fault(CutKind::BadForm))
}
