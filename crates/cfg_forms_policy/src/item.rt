//! The item of a policy line.

ghost use Rattle.std.specs.Prelude.{◌≡◌};
ghost use Rattle.std.specs.List.{AllByRecursion};
ghost use Rattle.cfg_ast.specs.text.Answers.{Reads};
ghost use Rattle.cfg_ast.specs.text.Lines.{IsWordIn, IsLineIn, texts};
ghost use Rattle.cfg_ast.specs.text.PolicyForms.{policy_form, policy_item_of};

use crate::community_line::community_line;
use crate::entry::{delete, lp, match_comms, match_prefixes, prepend, set_comms};
use crate::map_head::map_head;
use crate::prefix_entry::prefix_entry;
use cfg_ast::{FormFault, HeadClass, Line, PolicyForm, PolicyItem, PolicyScope, Span};
use cfg_words::policy_class;
use std::alloc::Global;

#[tactic(auto, using(crate::proofs::Exact::exact_reads))]
fn read_form(
    alloc: Global,
    bytes: &[u8],
    words: &[Span],
    line: u32,
    form: PolicyForm,
) -> Result<PolicyItem, FormFault>
    requires { AllByRecursion (IsWordIn bytes.now) words.now }
    ensures { Reads result (policy_form form line (texts bytes.now words.now)) }
{
    match form {
        PolicyForm::PrefixEntry => prefix_entry(alloc, bytes, words, line),
        PolicyForm::CommunityLine => community_line(alloc, bytes, words, line),
        PolicyForm::MapHead => map_head(alloc, bytes, words, line),
        PolicyForm::MatchPrefixes => match_prefixes(alloc, bytes, words, line),
        PolicyForm::MatchComms => match_comms(alloc, bytes, words, line),
        PolicyForm::Lp => lp(bytes, words),
        PolicyForm::Comms => set_comms(alloc, bytes, words),
        PolicyForm::Delete => delete(alloc, bytes, words, line),
        PolicyForm::Prepend => prepend(alloc, bytes, words, line),
    }
}

/// What a line of a prefix list, a community list, a route map or one of its entries says, at the top
/// or in an entry.
///
/// `UnknownLine` where no head of the scope begins the line; `Unsupported` where its longest head is a
/// refused one, and for router lines, which are read elsewhere; `BadForm` where the line does not fit
/// the form of its head; `WellKnown` where it fits, except for a well-known community (RFC 1997,
/// RFC 8326). `Memory` where memory ran out.
#[tactic(auto, unfolding(cfg_ast::specs::text::PolicyForms::policy_item_by))]
pub fn policy_item(
    alloc: Global,
    bytes: &[u8],
    line: &Line,
    scope: PolicyScope,
) -> Result<PolicyItem, FormFault>
    requires { IsLineIn bytes.now line.now }
    ensures { Reads result (policy_item_of scope line.now.number (texts bytes.now line.now.words)) }
{
    let words = line.words.as_slice();
    match policy_class(bytes, words, scope) {
        None => Err(FormFault::UnknownLine),
        Some(HeadClass::Refused) => Err(FormFault::Unsupported),
        Some(HeadClass::Ignored) => Ok(PolicyItem::Ignored),
        Some(HeadClass::Router(_)) => Err(FormFault::Unsupported),
        Some(HeadClass::Policy(form)) => read_form(alloc, bytes, words, line.number, form),
    }
}
