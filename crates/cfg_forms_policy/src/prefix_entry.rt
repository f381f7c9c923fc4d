//! An entry of a prefix list.

ghost use Rattle.std.specs.Prelude.{◌≡◌, ◌≤◌, IfSome};
ghost use Rattle.std.specs.List.{AllByRecursion};
ghost use Rattle.cfg_ast.specs.text.Answers.{Reads};
ghost use Rattle.cfg_ast.specs.text.Lines.{IsWordIn, texts};
ghost use Rattle.cfg_ast.specs.declared.heads.PolicyForm.TheVariants as form;
ghost use Rattle.cfg_ast.specs.text.PolicyForms.{bounds_of, policy_form};
ghost use Rattle.cfg_ast.specs.text.Words.{number_between, prefix_of};

use crate::act::is_permit;
use base_kit::Prefix;
use cfg_ast::FormFault::BadForm;
use cfg_ast::{FormFault, PolicyItem, PrefixEntry, Span};
use cfg_words::marks::{behind, place_of};
use cfg_words::{cut_to, list_name, read_address, read_between, text};
use std::alloc::Global;

// A length from `low` to 32.
fn read_len(word: &[u8], low: u8) -> Option<u8>
    ensures value { result ≡ number_between low 32 word.now }
    ensures bound { IfSome result (λ len. len ≤ 32) }
{
    let len = read_between(word, u32::from(low), 32)?;
    Some(len as u8)
}

#[tactic(auto, unfolding(cfg_ast::specs::text::Words::prefix_of))]
fn read_prefix(word: &[u8]) -> Option<Prefix>
    ensures { result ≡ prefix_of word.now }
{
    let slash = place_of(word, b'/');
    let addr = read_address(&word[..slash])?;
    let len = read_len(behind(word, slash), 0)?;
    Some(cut_to(len, addr))
}

// The lengths that `ge` and `le` give.
#[tactic(auto, unfolding(cfg_ast::specs::text::PolicyForms::bounds_of))]
fn bounds(bytes: &[u8], words: &[Span], len: u8) -> Result<(Option<u8>, Option<u8>), FormFault>
    requires { AllByRecursion (IsWordIn bytes.now) words.now }
    ensures { result ≡ bounds_of len (texts bytes.now words.now) }
{
    if let [] = words {
        return Ok((None, None));
    }
    if let [word, number] = words {
        let bound = read_len(text(bytes, *number), len).ok_or(BadForm)?;
        if text(bytes, *word) == b"ge".as_slice() {
            return Ok((Some(bound), None));
        }
        if text(bytes, *word) == b"le".as_slice() {
            return Ok((None, Some(bound)));
        }
        return Err(BadForm);
    }
    let [word, low, other, high] = words else {
        return Err(BadForm);
    };
    if text(bytes, *word) != b"ge".as_slice() || text(bytes, *other) != b"le".as_slice() {
        return Err(BadForm);
    }
    let ge = read_len(text(bytes, *low), len).ok_or(BadForm)?;
    let le = read_len(text(bytes, *high), ge).ok_or(BadForm)?;
    Ok((Some(ge), Some(le)))
}

#[tactic(auto, unfolding(cfg_ast::specs::text::PolicyForms::policy_form))]
pub(crate) fn prefix_entry(
    alloc: Global,
    bytes: &[u8],
    words: &[Span],
    line: u32,
) -> Result<PolicyItem, FormFault>
    requires { AllByRecursion (IsWordIn bytes.now) words.now }
    ensures { Reads result (policy_form form.PrefixEntry line (texts bytes.now words.now)) }
{
    let [_, _, name, word, number, act, prefix, options @ ..] = words else {
        return Err(BadForm);
    };
    if text(bytes, *word) != b"seq".as_slice() {
        return Err(BadForm);
    }
    let seq = read_between(text(bytes, *number), 1, u32::MAX).ok_or(BadForm)?;
    let permit = is_permit(text(bytes, *act)).ok_or(BadForm)?;
    let prefix = read_prefix(text(bytes, *prefix)).ok_or(BadForm)?;
    let (ge, le) = bounds(bytes, options, prefix.len())?;
    let list = list_name(alloc, text(bytes, *name))?;
    Ok(PolicyItem::PrefixEntry(
        list,
        PrefixEntry {
            seq,
            permit,
            prefix,
            ge,
            le,
            line,
        },
    ))
}
