//! The names of lists that a `match` line gives.

ghost use Rattle.std.specs.Prelude.{◌≡◌, IfOk, bytes_eq};
ghost use Rattle.std.specs.List.{AllByRecursion, list_all, list_any};
ghost use Rattle.cfg_ast.specs.text.Answers.{Reads};
ghost use Rattle.cfg_ast.specs.text.Lines.{IsWordIn, texts};
ghost use Rattle.cfg_ast.specs.text.PolicyForms.{all_differ, list_names_of};
ghost use Rattle.cfg_ast.specs.text.Words.{is_list_name};

use crate::word_groups::is_group;
use base_kit::{List, NoMemory, Text};
use cfg_ast::{FormFault, Span};
use cfg_words::{copy_of, is_list_name, text};
use std::alloc::Global;

fn are_list_names(bytes: &[u8], words: &[Span]) -> bool
    requires { AllByRecursion (IsWordIn bytes.now) words.now }
    ensures { result ≡ list_all is_list_name (texts bytes.now words.now) }
{
    match words {
        [] => true,
        [word, rest @ ..] => is_list_name(text(bytes, *word)) && are_list_names(bytes, rest),
    }
}

fn is_among(word: &[u8], bytes: &[u8], words: &[Span]) -> bool
    requires { AllByRecursion (IsWordIn bytes.now) words.now }
    ensures { result ≡ list_any (bytes_eq word.now) (texts bytes.now words.now) }
{
    match words {
        [] => false,
        [other, rest @ ..] => word == text(bytes, *other) || is_among(word, bytes, rest),
    }
}

fn all_differ(bytes: &[u8], words: &[Span]) -> bool
    requires { AllByRecursion (IsWordIn bytes.now) words.now }
    ensures { result ≡ all_differ bytes_eq (texts bytes.now words.now) }
{
    match words {
        [] => true,
        [word, rest @ ..] => {
            !is_among(text(bytes, *word), bytes, rest) && all_differ(bytes, rest)
        }
    }
}

fn copies(alloc: Global, bytes: &[u8], words: &[Span]) -> Result<List<Text>, NoMemory>
    requires { AllByRecursion (IsWordIn bytes.now) words.now }
    ensures { IfOk result (λ names. names ≡ texts bytes.now words.now) }
{
    let mut names = List::new(alloc);
    for word in words {
        names.push(copy_of(alloc, text(bytes, *word))?)?;
    }
    Ok(names)
}

/// The words as names: 1 to 32 names of lists, each once, or else `BadForm`.
#[tactic(auto, unfolding(cfg_ast::specs::text::PolicyForms::list_names_of))]
pub(crate) fn list_names(
    alloc: Global,
    bytes: &[u8],
    words: &[Span],
) -> Result<List<Text>, FormFault>
    requires { AllByRecursion (IsWordIn bytes.now) words.now }
    ensures { Reads result (list_names_of (texts bytes.now words.now)) }
{
    if !(is_group(bytes, words) && are_list_names(bytes, words) && all_differ(bytes, words)) {
        return Err(FormFault::BadForm);
    }
    Ok(copies(alloc, bytes, words)?)
}
