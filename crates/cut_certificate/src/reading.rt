//! A text read as a certificate, and judged.

ghost use Rattle.std.specs.Prelude.{◌≡◌, ◌+◌, ◌≤◌, IfOk, length, map};
ghost use Rattle.cfg_ast.specs.text.Members.{all_lines_of};
ghost use Rattle.cfg_ast.specs.text.TextLines.{text_line};
ghost use Rattle.numbered_names.specs.NamePlaces.{AreBelow, place_in};
ghost use Rattle.cut_certificate.specs.Answers.{Verifies, refused_at};
ghost use Rattle.cut_certificate.specs.Certificates.{AreCoarsest, IsAccepted};
ghost use Rattle.cut_certificate.specs.Moves.{AreIncoming};
ghost use Rattle.cut_certificate.specs.Outgoing.{AreIndexed};
ghost use Rattle.cut_certificate.specs.Texts.{certificate_from, certificate_of_text, opening};

use crate::certificate::Certificate;
use crate::incoming::by_exporter;
use crate::lines::with_line;
use crate::outgoing::{Placed, by_importer};
use crate::refusal::{CutRefusal, Stop};
use crate::standing::Standing;
use base_kit::{ActGraph, List, Text};
use cfg_lex::{newline_from, without_return};
use numbered_names::NamePlaces;
use std::alloc::Global;

fn refused_at(line: u32, stop: Stop) -> CutRefusal
    ensures { result ≡ refused_at line stop }
{
    match stop {
        Stop::Fault(why) => CutRefusal::At { line, why },
        Stop::Memory => CutRefusal::Memory,
    }
}

// The certificate that the lines spell for routers whose names have these places.
fn read_lines(
    alloc: Global,
    graph: &ActGraph,
    outgoing: &[Vec<Placed>],
    incoming: &[Vec<Placed>],
    places: &NamePlaces,
    bytes: &[u8],
) -> Result<Certificate, CutRefusal>
    requires short { length bytes.now ≤ 16777216 }
    requires index { AreIndexed graph.now outgoing.now }
    requires incoming { AreIncoming graph.now incoming.now }
    requires within { AreBelow places.now graph.now.count }
    ensures { Verifies result (certificate_from graph.now.edges (place_in places.now) (length (all_lines_of bytes.now) + 1) (map (text_line bytes.now) (all_lines_of bytes.now)) (opening graph.now)) }
{
    let _known = graph.count;
    let mut standing = Standing::opening(alloc, graph)?;
    let mut line = 0;
    let mut from = 0;
    while from < bytes.len() {
        line += 1;
        let end = newline_from(bytes, from);
        let upto = without_return(bytes, from, end);
        match with_line(
            alloc,
            graph,
            outgoing,
            incoming,
            places,
            standing,
            &bytes[from..upto],
        ) {
            Ok(more) => standing = more,
            Err(stop) => return Err(refused_at(line, stop)),
        }
        from = end + 1;
    }
    standing.ended(line + 1)
}

/// The certificate that a text spells for a graph whose routers have these names. Its groups are those
/// of the coarsest admissible partition. The text is a line `bonsai certificate 1`, lines
/// `split B T NAME L`, a line `group NAME ..` for each group, and a line `end`. A split line names the
/// edge by which NAME imports over link L. The split takes the members of block B that have an edge with
/// the same act into block T, and makes them the next block. Lines without words are passed over.
///
/// # Errors
///
/// The first line with a fault decides, and on it the first kind of `CutKind`; `NoEnd` stands at the
/// line behind the last. `Memory` where memory ran out.
pub fn verify(
    alloc: Global,
    graph: &ActGraph,
    names: &List<Text>,
    bytes: &[u8],
) -> Result<Certificate, CutRefusal>
    requires short { length bytes.now ≤ 16777216 }
    requires names { length names.now ≡ graph.now.count }
    ensures exact { Verifies result (certificate_of_text graph.now names.now bytes.now) }
    ensures accepted { IfOk result (IsAccepted graph.now) }
    ensures coarsest { IfOk result (λ c. AreCoarsest graph.now c.groups) }
{
    let _known = graph.count;
    let places = NamePlaces::of(alloc, names.as_slice())?;
    let outgoing = by_importer(alloc, graph)?;
    let incoming = by_exporter(alloc, graph)?;
    read_lines(alloc, graph, &outgoing, &incoming, &places, bytes)
}
