//! Communities, one and several.

ghost use Rattle.std.specs.Prelude.{◌≡◌, ◌≤◌, ◌∷◌, [], IfOk};
ghost use Rattle.std.specs.List.{AllByRecursion, list_all, list_any, filter_map, cons_option};
ghost use Rattle.base_kit.specs.Sets.{with_numbers};
ghost use Rattle.cfg_ast.specs.text.Answers.{Reads};
ghost use Rattle.cfg_ast.specs.text.Lines.{IsWordIn, texts};
ghost use Rattle.cfg_ast.specs.text.PolicyForms.{all_differ, community_words};
ghost use Rattle.cfg_ast.specs.text.Words.{community_word, is_reserved, is_some_reserved, is_well_known_name, is_community, is_well_known, same_value, same_community};

use crate::word_groups::is_group;
use base_kit::{NoMemory, NumSet};
use cfg_ast::{FormFault, Span};
use cfg_words::{read_community, text};
use std::alloc::Global;

#[tactic(auto, unfolding(cfg_ast::specs::text::Words::is_well_known_name))]
fn is_well_known_name(word: &[u8]) -> bool
    ensures { result ≡ is_well_known_name word.now }
{
    word == b"internet".as_slice()
        || word == b"no-export".as_slice()
        || word == b"no-advertise".as_slice()
        || word == b"local-AS".as_slice()
        || word == b"gshut".as_slice()
}

#[tactic(auto, unfolding(cfg_ast::specs::text::Words::is_community))]
fn is_community(word: &[u8]) -> bool
    ensures { result ≡ is_community word.now }
{
    is_well_known_name(word) || read_community(word).is_some()
}

fn is_some_reserved(community: Option<u32>) -> bool
    ensures { result ≡ is_some_reserved community }
{
    match community {
        None => false,
        Some(community) => community == 0 || 4294901760 <= community,
    }
}

#[tactic(auto, unfolding(cfg_ast::specs::text::Words::is_well_known))]
fn is_well_known(word: &[u8]) -> bool
    ensures { result ≡ is_well_known word.now }
{
    is_well_known_name(word) || is_some_reserved(read_community(word))
}

fn same_value(community: Option<u32>, other: Option<u32>) -> bool
    ensures { result ≡ same_value community other }
{
    match community {
        None => false,
        Some(a) => match other {
            None => false,
            Some(b) => a == b,
        },
    }
}

#[tactic(auto, unfolding(cfg_ast::specs::text::Words::same_community))]
fn same_community(word: &[u8], other: &[u8]) -> bool
    ensures { result ≡ same_community word.now other.now }
{
    word == other || same_value(read_community(word), read_community(other))
}

fn are_communities(bytes: &[u8], words: &[Span]) -> bool
    requires { AllByRecursion (IsWordIn bytes.now) words.now }
    ensures { result ≡ list_all is_community (texts bytes.now words.now) }
{
    match words {
        [] => true,
        [word, rest @ ..] => is_community(text(bytes, *word)) && are_communities(bytes, rest),
    }
}

fn is_among(word: &[u8], bytes: &[u8], words: &[Span]) -> bool
    requires { AllByRecursion (IsWordIn bytes.now) words.now }
    ensures { result ≡ list_any (same_community word.now) (texts bytes.now words.now) }
{
    match words {
        [] => false,
        [other, rest @ ..] => {
            same_community(word, text(bytes, *other)) || is_among(word, bytes, rest)
        }
    }
}

fn all_differ(bytes: &[u8], words: &[Span]) -> bool
    requires { AllByRecursion (IsWordIn bytes.now) words.now }
    ensures { result ≡ all_differ same_community (texts bytes.now words.now) }
{
    match words {
        [] => true,
        [word, rest @ ..] => {
            !is_among(text(bytes, *word), bytes, rest) && all_differ(bytes, rest)
        }
    }
}

fn has_well_known(bytes: &[u8], words: &[Span]) -> bool
    requires { AllByRecursion (IsWordIn bytes.now) words.now }
    ensures { result ≡ list_any is_well_known (texts bytes.now words.now) }
{
    match words {
        [] => false,
        [word, rest @ ..] => is_well_known(text(bytes, *word)) || has_well_known(bytes, rest),
    }
}

fn with_community(set: NumSet, word: &[u8]) -> Result<NumSet, NoMemory>
    ensures { IfOk result (λ more. more ≡ with_numbers (cons_option (community_word word.now) []) set) }
{
    match read_community(word) {
        None => Ok(set),
        Some(community) => {
            let mut set = set;
            set.add(community)?;
            Ok(set)
        }
    }
}

fn values(alloc: Global, bytes: &[u8], words: &[Span]) -> Result<NumSet, NoMemory>
    requires { AllByRecursion (IsWordIn bytes.now) words.now }
    ensures { IfOk result (λ set. set ≡ with_numbers (filter_map community_word (texts bytes.now words.now)) []) }
{
    let mut set = NumSet::new(alloc);
    for word in words {
        set = with_community(set, text(bytes, *word))?;
    }
    Ok(set)
}

/// The communities that the words spell: 1 to 32 communities, each once, or else `BadForm`. `WellKnown`
/// if the words spell such communities and one of them is well-known.
#[tactic(auto, unfolding(cfg_ast::specs::text::PolicyForms::community_words))]
pub(crate) fn communities(alloc: Global, bytes: &[u8], words: &[Span]) -> Result<NumSet, FormFault>
    requires { AllByRecursion (IsWordIn bytes.now) words.now }
    ensures { Reads result (community_words (texts bytes.now words.now)) }
{
    if !(is_group(bytes, words) && are_communities(bytes, words) && all_differ(bytes, words)) {
        return Err(FormFault::BadForm);
    }
    if has_well_known(bytes, words) {
        return Err(FormFault::WellKnown);
    }
    Ok(values(alloc, bytes, words)?)
}
