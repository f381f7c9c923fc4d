//! The line that opens an entry of a route map.

ghost use Rattle.std.specs.Prelude.{◌≡◌};
ghost use Rattle.std.specs.List.{AllByRecursion};
ghost use Rattle.cfg_ast.specs.text.Answers.{Reads};
ghost use Rattle.cfg_ast.specs.text.Lines.{IsWordIn, texts};
ghost use Rattle.cfg_ast.specs.declared.heads.PolicyForm.TheVariants as form;
ghost use Rattle.cfg_ast.specs.text.PolicyForms.{empty_entry, policy_form};

use crate::act::is_permit;
use cfg_ast::FormFault::BadForm;
use cfg_ast::{FormFault, MapEntry, PolicyItem, Span};
use cfg_words::{list_name, read_between, text};
use std::alloc::Global;

fn empty_entry(seq: u32, permit: bool, line: u32) -> MapEntry
    ensures { result ≡ empty_entry seq permit line }
{
    MapEntry {
        seq,
        permit,
        line,
        prefixes: None,
        comms: None,
        exact: false,
        lp: None,
        change: None,
        change_line: 0,
        delete: None,
        prepend: None,
    }
}

#[tactic(auto, unfolding(cfg_ast::specs::text::PolicyForms::policy_form))]
pub(crate) fn map_head(
    alloc: Global,
    bytes: &[u8],
    words: &[Span],
    line: u32,
) -> Result<PolicyItem, FormFault>
    requires { AllByRecursion (IsWordIn bytes.now) words.now }
    ensures { Reads result (policy_form form.MapHead line (texts bytes.now words.now)) }
{
    let [_, name, act, number] = words else {
        return Err(BadForm);
    };
    let permit = is_permit(text(bytes, *act)).ok_or(BadForm)?;
    let seq = read_between(text(bytes, *number), 0, 65535).ok_or(BadForm)?;
    let map = list_name(alloc, text(bytes, *name))?;
    Ok(PolicyItem::MapHead(map, empty_entry(seq, permit, line)))
}
