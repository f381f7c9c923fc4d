//! A line of a community list.

ghost use Rattle.std.specs.Prelude.{◌≡◌};
ghost use Rattle.std.specs.List.{AllByRecursion};
ghost use Rattle.cfg_ast.specs.text.Answers.{Reads};
ghost use Rattle.cfg_ast.specs.text.Lines.{IsWordIn, text_of, texts};
ghost use Rattle.cfg_ast.specs.declared.heads.PolicyForm.TheVariants as form;
ghost use Rattle.cfg_ast.specs.text.PolicyForms.{community_line, policy_form};

use crate::act::is_permit;
use crate::communities::communities;
use cfg_ast::FormFault::BadForm;
use cfg_ast::{CommunityLine, FormFault, PolicyItem, Span};
use cfg_words::{list_name, read_between, text};
use std::alloc::Global;

#[tactic(auto, unfolding(cfg_ast::specs::text::PolicyForms::community_line))]
fn list_line(
    alloc: Global,
    bytes: &[u8],
    name: Span,
    act: Span,
    words: &[Span],
    line: u32,
) -> Result<PolicyItem, FormFault>
    requires name { IsWordIn bytes.now name }
    requires act { IsWordIn bytes.now act }
    requires words { AllByRecursion (IsWordIn bytes.now) words.now }
    ensures { Reads result (community_line line (text_of bytes.now name) (text_of bytes.now act) (texts bytes.now words.now)) }
{
    let permit = is_permit(text(bytes, act)).ok_or(BadForm)?;
    let list = list_name(alloc, text(bytes, name))?;
    let comms = communities(alloc, bytes, words)?;
    Ok(PolicyItem::CommunityLine(
        list,
        CommunityLine {
            permit,
            comms,
            line,
        },
    ))
}

#[tactic(auto, unfolding(cfg_ast::specs::text::PolicyForms::policy_form))]
pub(crate) fn community_line(
    alloc: Global,
    bytes: &[u8],
    words: &[Span],
    line: u32,
) -> Result<PolicyItem, FormFault>
    requires { AllByRecursion (IsWordIn bytes.now) words.now }
    ensures { Reads result (policy_form form.CommunityLine line (texts bytes.now words.now)) }
{
    let [_, _, first, second, third, rest @ ..] = words else {
        return Err(BadForm);
    };
    if text(bytes, *first) == b"standard".as_slice() {
        return list_line(alloc, bytes, *second, *third, rest, line);
    }
    if read_between(text(bytes, *first), 1, 99).is_none() {
        return Err(BadForm);
    }
    list_line(alloc, bytes, *first, *second, &words[4..], line)
}
