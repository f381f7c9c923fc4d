//! The lines of an entry of a route map.

ghost use Rattle.std.specs.Prelude.{ℕ, ◌≡◌, length, nat_le, ◌&&◌, IfOk, if◌then◌else◌, codes, true, false};
ghost use Rattle.std.specs.List.{AllByRecursion, list_all, filter_map};
ghost use Rattle.cfg_ast.specs.text.Answers.{Reads};
ghost use Rattle.cfg_ast.specs.text.Lines.{IsWordIn, texts};
ghost use Rattle.cfg_ast.specs.declared.heads.PolicyForm.TheVariants as form;
ghost use Rattle.cfg_ast.specs.text.PolicyForms.{comms_match, has_mark, but_last, is_none_alone, change_of, is_as_number, policy_form};
ghost use Rattle.cfg_ast.specs.text.Words.{as_number_word};

use crate::communities::communities;
use crate::name_list::list_names;
use crate::word_groups::before_mark;
use base_kit::{List, NoMemory};
use cfg_ast::FormFault::BadForm;
use cfg_ast::{Change, FormFault, NameLine, PolicyItem, Prepend, Span};
use cfg_words::{named, read_as_number, read_number, text};
use std::alloc::Global;

#[tactic(auto, unfolding(cfg_ast::specs::text::PolicyForms::policy_form))]
pub(crate) fn match_prefixes(
    alloc: Global,
    bytes: &[u8],
    words: &[Span],
    line: u32,
) -> Result<PolicyItem, FormFault>
    requires { AllByRecursion (IsWordIn bytes.now) words.now }
    ensures { Reads result (policy_form form.MatchPrefixes line (texts bytes.now words.now)) }
{
    let [_, _, _, _, words @ ..] = words else {
        return Err(BadForm);
    };
    let names = list_names(alloc, bytes, words)?;
    Ok(PolicyItem::MatchPrefixes(NameLine { names, line }))
}

#[tactic(auto, unfolding(cfg_ast::specs::text::PolicyForms::comms_match))]
fn comms_match(
    alloc: Global,
    bytes: &[u8],
    words: &[Span],
    line: u32,
    exact: bool,
) -> Result<PolicyItem, FormFault>
    requires { AllByRecursion (IsWordIn bytes.now) words.now }
    ensures { Reads result (comms_match line exact (texts bytes.now words.now)) }
{
    let names = list_names(alloc, bytes, words)?;
    Ok(PolicyItem::MatchComms(NameLine { names, line }, exact))
}

fn marked_match(
    alloc: Global,
    bytes: &[u8],
    words: &[Span],
    line: u32,
) -> Result<PolicyItem, FormFault>
    requires { AllByRecursion (IsWordIn bytes.now) words.now }
    ensures { Reads result (if has_mark (codes "exact-match") (texts bytes.now words.now) then comms_match line true (but_last (texts bytes.now words.now)) else comms_match line false (texts bytes.now words.now)) }
{
    if let Some(names) = before_mark(bytes, words, b"exact-match") {
        return comms_match(alloc, bytes, names, line, true);
    }
    comms_match(alloc, bytes, words, line, false)
}

#[tactic(auto, unfolding(cfg_ast::specs::text::PolicyForms::policy_form))]
pub(crate) fn match_comms(
    alloc: Global,
    bytes: &[u8],
    words: &[Span],
    line: u32,
) -> Result<PolicyItem, FormFault>
    requires { AllByRecursion (IsWordIn bytes.now) words.now }
    ensures { Reads result (policy_form form.MatchComms line (texts bytes.now words.now)) }
{
    let [_, _, words @ ..] = words else {
        return Err(BadForm);
    };
    marked_match(alloc, bytes, words, line)
}

#[tactic(auto, unfolding(cfg_ast::specs::text::PolicyForms::policy_form))]
pub(crate) fn lp(bytes: &[u8], words: &[Span]) -> Result<PolicyItem, FormFault>
    requires { AllByRecursion (IsWordIn bytes.now) words.now }
    ensures { (line : ℕ) → result ≡ policy_form form.Lp line (texts bytes.now words.now) }
{
    let [_, _, number] = words else {
        return Err(BadForm);
    };
    let lp = read_number(text(bytes, *number)).ok_or(BadForm)?;
    Ok(PolicyItem::Lp(lp))
}

#[tactic(auto, unfolding(cfg_ast::specs::text::PolicyForms::is_none_alone))]
fn is_none_alone(bytes: &[u8], words: &[Span]) -> bool
    requires { AllByRecursion (IsWordIn bytes.now) words.now }
    ensures { result ≡ is_none_alone (texts bytes.now words.now) }
{
    let [word] = words else {
        return false;
    };
    text(bytes, *word) == b"none".as_slice()
}

#[tactic(auto, unfolding(cfg_ast::specs::text::PolicyForms::change_of))]
fn change(alloc: Global, bytes: &[u8], words: &[Span]) -> Result<Change, FormFault>
    requires { AllByRecursion (IsWordIn bytes.now) words.now }
    ensures { Reads result (change_of (texts bytes.now words.now)) }
{
    if is_none_alone(bytes, words) {
        return Ok(Change::Clear);
    }
    if let Some(words) = before_mark(bytes, words, b"additive") {
        return Ok(Change::Append(communities(alloc, bytes, words)?));
    }
    Ok(Change::Replace(communities(alloc, bytes, words)?))
}

#[tactic(auto, unfolding(cfg_ast::specs::text::PolicyForms::policy_form))]
pub(crate) fn set_comms(
    alloc: Global,
    bytes: &[u8],
    words: &[Span],
) -> Result<PolicyItem, FormFault>
    requires { AllByRecursion (IsWordIn bytes.now) words.now }
    ensures { (line : ℕ) → Reads result (policy_form form.Comms line (texts bytes.now words.now)) }
{
    let [_, _, words @ ..] = words else {
        return Err(BadForm);
    };
    Ok(PolicyItem::Comms(change(alloc, bytes, words)?))
}

#[tactic(auto, unfolding(cfg_ast::specs::text::PolicyForms::policy_form))]
pub(crate) fn delete(
    alloc: Global,
    bytes: &[u8],
    words: &[Span],
    line: u32,
) -> Result<PolicyItem, FormFault>
    requires { AllByRecursion (IsWordIn bytes.now) words.now }
    ensures { Reads result (policy_form form.Delete line (texts bytes.now words.now)) }
{
    let [_, _, name, word] = words else {
        return Err(BadForm);
    };
    if text(bytes, *word) != b"delete".as_slice() {
        return Err(BadForm);
    }
    Ok(PolicyItem::Delete(named(alloc, text(bytes, *name), line)?))
}

fn are_as_numbers(bytes: &[u8], words: &[Span]) -> bool
    requires { AllByRecursion (IsWordIn bytes.now) words.now }
    ensures { result ≡ list_all is_as_number (texts bytes.now words.now) }
{
    match words {
        [] => true,
        [word, rest @ ..] => {
            read_as_number(text(bytes, *word)).is_some() && are_as_numbers(bytes, rest)
        }
    }
}

fn as_numbers(alloc: Global, bytes: &[u8], words: &[Span]) -> Result<List<u32>, NoMemory>
    requires { AllByRecursion (IsWordIn bytes.now) words.now }
    ensures { IfOk result (λ numbers. numbers ≡ filter_map as_number_word (texts bytes.now words.now)) }
{
    let mut numbers = List::new(alloc);
    for word in words {
        if let Some(number) = read_as_number(text(bytes, *word)) {
            numbers.push(number)?;
        }
    }
    Ok(numbers)
}

fn fits_prepend(bytes: &[u8], words: &[Span]) -> bool
    requires { AllByRecursion (IsWordIn bytes.now) words.now }
    ensures { result ≡ (nat_le 1 (length (texts bytes.now words.now)) && nat_le (length (texts bytes.now words.now)) 10 && list_all is_as_number (texts bytes.now words.now)) }
{
    1 <= words.len() && words.len() <= 10 && are_as_numbers(bytes, words)
}

#[tactic(auto, unfolding(cfg_ast::specs::text::PolicyForms::policy_form))]
pub(crate) fn prepend(
    alloc: Global,
    bytes: &[u8],
    words: &[Span],
    line: u32,
) -> Result<PolicyItem, FormFault>
    requires { AllByRecursion (IsWordIn bytes.now) words.now }
    ensures { Reads result (policy_form form.Prepend line (texts bytes.now words.now)) }
{
    let [_, _, _, words @ ..] = words else {
        return Err(BadForm);
    };
    if !fits_prepend(bytes, words) {
        return Err(BadForm);
    }
    let numbers = as_numbers(alloc, bytes, words)?;
    Ok(PolicyItem::Prepend(Prepend { numbers, line }))
}
