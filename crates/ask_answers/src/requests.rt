//! A request over a network.

ghost use Rattle.std.specs.Prelude.{◌≡◌, IfOk, Some, string_bytes};
ghost use Rattle.cfg_ast.specs.meaning.Classes.{classes_of};
ghost use Rattle.endings.specs.Findings.{Finds};
ghost use Rattle.endings.specs.Telling.{refused};
ghost use Rattle.ask_names.specs.Selection.{selected};
ghost use Rattle.ask_requests.specs.Faults.{IsSpanOf, reason_of};
ghost use Rattle.ask_answers.specs.Atlases.{IsAtlasOf};
ghost use Rattle.ask_answers.specs.Reports.{IsOfRequest, IsReportTold};

use crate::atlas::Atlas;
use crate::reports::put_report;
use ask_names::{Span, names_one};
use ask_requests::{Fault, span_of};
use ask_words::Request;
use base_kit::NoMemory;
use cfg_check::Checked;
use endings::Finding;
use std::alloc::Global;

/// The places of the classes that a request asks, or what the network does not have of what it names.
///
/// # Errors
/// Out of memory.
pub(crate) fn asked_span(
    alloc: Global,
    checked: &Checked,
    atlas: &Atlas,
    request: &Request,
) -> Result<Result<Span, Fault>, NoMemory>
    requires { IsAtlasOf checked.now.network atlas.now }
    ensures { IfOk result (IsSpanOf checked.now.network request.now) }
{
    let network = checked.network();
    let classes = atlas.classes.as_slice();
    let links = atlas.shared.links.as_slice();
    span_of(alloc, network, classes, links, &atlas.places, request)
}

// The refusal of a request, with the word that was given for the classes.
fn refusal(alloc: Global, fault: &Fault, word: &str) -> Finding
    ensures { Finds result (λ o. o ≡ refused (reason_of word.now fault.now)) ⊥ ⊥ }
{
    match fault.reason(alloc, word) {
        Ok(reason) => Finding::Refusal(reason.into_bytes()),
        Err(_) => Finding::NoMemory,
    }
}

fn report(
    alloc: Global,
    checked: &Checked,
    mut atlas: Atlas,
    request: &Request,
    span: Span,
) -> Finding
    requires atlas { IsAtlasOf checked.now.network atlas }
    requires span { selected request.now.classes (classes_of checked.now.network) ≡ Some span }
    ensures { Finds result (IsReportTold checked.now.network request.now) ⊥ ⊥ }
{
    let mut bytes = Vec::new(alloc);
    let shows = names_one(request.classes);
    match put_report(alloc, &mut bytes, checked, &mut atlas, request, span, shows) {
        Ok(all) => Finding::Output { bytes, all },
        Err(NoMemory) => Finding::NoMemory,
    }
}

/// What a request writes, or why it is refused. `word` is the one that was given for the classes.
pub fn answer(alloc: Global, checked: &Checked, request: &Request, word: &str) -> Finding
    ensures { Finds result (IsOfRequest word.now checked.now.network request.now) ⊥ ⊥ }
{
    let Ok(atlas) = Atlas::of(alloc, checked) else {
        return Finding::NoMemory;
    };
    match asked_span(alloc, checked, &atlas, request) {
        Ok(Ok(span)) => report(alloc, checked, atlas, request, span),
        Ok(Err(fault)) => refusal(alloc, &fault, word),
        Err(NoMemory) => Finding::NoMemory,
    }
}
