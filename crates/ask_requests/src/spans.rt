//! The classes that a request asks.

ghost use Rattle.std.specs.Prelude.{◌≡◌, IfOk};
ghost use Rattle.cfg_ast.specs.declared.network.Router.{Router};
ghost use Rattle.cfg_ast.specs.meaning.Classes.{classes_of};
ghost use Rattle.cfg_ast.specs.meaning.Topology.{links_of};
ghost use Rattle.numbered_names.specs.NamePlaces.{ArePlacesOf};
ghost use Rattle.ask_requests.specs.Faults.{IsSpanOf};

use crate::fault::Fault;
use crate::unjoined::unjoined;
use crate::unknown::unknown_name;
use ask_names::{Span, selected};
use ask_words::Request;
use base_kit::{NoMemory, Text};
use cfg_ast::{DestClass, Link, Network};
use numbered_names::NamePlaces;
use std::alloc::Global;

/// The places of the classes that are asked, or what the network does not have of what the request names. The classes
/// and links of the network, and the places of its names, are given.
///
/// # Errors
/// Out of memory.
pub fn span_of(
    alloc: Global,
    network: &Network,
    classes: &[DestClass],
    links: &[Link],
    places: &NamePlaces,
    request: &Request,
) -> Result<Result<Span, Fault>, NoMemory>
    requires classes { classes.now ≡ classes_of network.now }
    requires links { links.now ≡ links_of network.now }
    requires places { ArePlacesOf (λ (router : Router). router.name) places.now network.now.routers }
    ensures { IfOk result (IsSpanOf network.now request.now) }
{
    let Some(span) = selected(request.classes, classes) else {
        return Ok(Err(Fault::NoClass));
    };
    if let Some(name) = unknown_name(network, places, request) {
        let name = Text::copy_of(alloc, name.as_str())?;
        return Ok(Err(Fault::UnknownRouter(name)));
    }
    let apart = unjoined(alloc, network, links, request.down.as_slice())?;
    if let Some(pair) = apart {
        let pair = pair.word(alloc)?;
        return Ok(Err(Fault::NoLink(pair)));
    }
    Ok(Ok(span))
}
