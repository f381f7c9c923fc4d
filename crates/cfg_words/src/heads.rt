//! The longest head that begins a line.

ghost use Rattle.std.specs.Prelude.{◌≡◌, ◌++◌, length, map, drop, if◌then◌else◌, Some, bytes_eq};
ghost use Rattle.std.specs.List.{AllByRecursion};
ghost use Rattle.std.specs.Option.{option_map};
ghost use Rattle.cfg_ast.specs.text.Heads.{is_word_for, begins, longest, longer, class_in, heads_of, policy_heads_of, top_heads, interface_heads, bgp_heads, ospf_heads, entry_heads};
ghost use Rattle.cfg_ast.specs.text.Lines.{IsWordIn, texts};
ghost use Rattle.cfg_words.specs.Rows.{row_of, rows_of, first_byte};

use crate::common_heads;
use crate::numbers::read_between;
use crate::tables::{bgp, entry, interface, ospf, top};
use crate::words::text;
use cfg_ast::{HeadClass, PolicyScope, Scope, Span};

/// A row of a table: the words of a head, and what the lines are that it begins.
#[derive(Clone, Copy)]
pub(crate) struct Head(pub &'static [&'static str], pub HeadClass);

// The lengths tell most words apart, and cost no call.
fn are_same(head_word: &[u8], word: &[u8]) -> bool
    ensures { result ≡ bytes_eq head_word.now word.now }
{
    head_word.len() == word.len() && head_word == word
}

#[tactic(auto, unfolding(cfg_ast::specs::text::Heads::is_word_for))]
fn is_word_for(head_word: &str, word: &[u8]) -> bool
    ensures { result ≡ is_word_for head_word.now word.now }
{
    match head_word.as_bytes() {
        b"A" => true,
        letters => {
            if are_same(letters, b"100-500") {
                read_between(word, 100, 500).is_some()
            } else {
                are_same(letters, word)
            }
        }
    }
}

// Whether the head begins the line. Heads of one table share their first words more often than their
// last, so the last word is looked at first.
fn begins(head: &[&str], bytes: &[u8], words: &[Span]) -> bool
    requires { AllByRecursion (IsWordIn bytes.now) words.now }
    ensures { result ≡ begins (map (λ word. word.now) head.now) (texts bytes.now words.now) }
{
    match head {
        [] => true,
        [first, others @ ..] => match words {
            [] => false,
            [word, rest @ ..] => {
                begins(others, bytes, rest) && is_word_for(first, text(bytes, *word))
            }
        },
    }
}

fn is_longer(row: &Head, best: &Option<Head>) -> bool
    ensures { (if result then Some (row_of row.now) else option_map row_of best.now)
        ≡ longer (option_map row_of best.now) (Some (row_of row.now)) }
{
    match best {
        None => true,
        Some(held) => held.0.len() < row.0.len(),
    }
}

// The longest head of these rows that begins the line. Most rows after the longest need no look at the
// line, since they are not longer.
#[tactic(auto, using(crate::proofs::Longest::longer_assoc))]
fn longest(rows: &[Head], bytes: &[u8], words: &[Span]) -> Option<Head>
    requires { AllByRecursion (IsWordIn bytes.now) words.now }
    ensures { option_map row_of result ≡ longest (rows_of rows.now) (texts bytes.now words.now) }
{
    let mut best = None;
    for row in rows {
        if is_longer(row, &best) && begins(row.0, bytes, words) {
            best = Some(*row);
        }
    }
    best
}

// The first byte of the line, and 0 where it has none.
fn first_byte(bytes: &[u8], words: &[Span]) -> u8
    requires { AllByRecursion (IsWordIn bytes.now) words.now }
    ensures { result ≡ first_byte (texts bytes.now words.now) }
{
    match words {
        [] => 0,
        [word, ..] => match text(bytes, *word) {
            [] => 0,
            [first, ..] => *first,
        },
    }
}

fn second_byte(bytes: &[u8], words: &[Span]) -> u8
    requires { AllByRecursion (IsWordIn bytes.now) words.now }
    ensures { result ≡ first_byte (drop 1 (texts bytes.now words.now)) }
{
    match words {
        [] => 0,
        [_, others @ ..] => first_byte(bytes, others),
    }
}

fn third_byte(bytes: &[u8], words: &[Span]) -> u8
    requires { AllByRecursion (IsWordIn bytes.now) words.now }
    ensures { result ≡ first_byte (drop 2 (texts bytes.now words.now)) }
{
    match words {
        [] => 0,
        [_, others @ ..] => second_byte(bytes, others),
    }
}

fn class_among(rows: &[Head], bytes: &[u8], words: &[Span]) -> Option<HeadClass>
    requires { AllByRecursion (IsWordIn bytes.now) words.now }
    ensures { result ≡ class_in (rows_of rows.now) (texts bytes.now words.now) }
{
    match longest(rows, bytes, words) {
        Some(head) => Some(head.1),
        None => None,
    }
}

fn top_class(bytes: &[u8], words: &[Span]) -> Option<HeadClass>
    requires { AllByRecursion (IsWordIn bytes.now) words.now }
    ensures { result ≡ class_in top_heads (texts bytes.now words.now) }
{
    if let Some(class) = common_heads::top_class(bytes, words) {
        return Some(class);
    }
    let rows = top::begun_by(first_byte(bytes, words), second_byte(bytes, words));
    class_among(rows, bytes, words)
}

fn interface_class(bytes: &[u8], words: &[Span]) -> Option<HeadClass>
    requires { AllByRecursion (IsWordIn bytes.now) words.now }
    ensures { result ≡ class_in interface_heads (texts bytes.now words.now) }
{
    if let Some(class) = common_heads::interface_class(bytes, words) {
        return Some(class);
    }
    let rows = interface::begun_by(first_byte(bytes, words), second_byte(bytes, words));
    class_among(rows, bytes, words)
}

fn bgp_class(bytes: &[u8], words: &[Span]) -> Option<HeadClass>
    requires { AllByRecursion (IsWordIn bytes.now) words.now }
    ensures { result ≡ class_in bgp_heads (texts bytes.now words.now) }
{
    if let Some(class) = common_heads::bgp_class(bytes, words) {
        return Some(class);
    }
    let rows = bgp::begun_by(first_byte(bytes, words), third_byte(bytes, words));
    class_among(rows, bytes, words)
}

#[tactic(auto, using(crate::proofs::Longest::class_begun))]
fn ospf_class(bytes: &[u8], words: &[Span]) -> Option<HeadClass>
    requires { AllByRecursion (IsWordIn bytes.now) words.now }
    ensures { result ≡ class_in ospf_heads (texts bytes.now words.now) }
{
    if let Some(class) = common_heads::ospf_class(bytes, words) {
        return Some(class);
    }
    class_among(ospf::begun_by(first_byte(bytes, words)), bytes, words)
}

#[tactic(auto, using(crate::proofs::Longest::class_begun))]
fn entry_class(bytes: &[u8], words: &[Span]) -> Option<HeadClass>
    requires { AllByRecursion (IsWordIn bytes.now) words.now }
    ensures { result ≡ class_in entry_heads (texts bytes.now words.now) }
{
    if let Some(class) = common_heads::entry_class(bytes, words) {
        return Some(class);
    }
    class_among(entry::begun_by(first_byte(bytes, words)), bytes, words)
}

/// What the longest head that begins the line says of it, in a scope of router lines. `None` where no
/// head of the scope's tables begins it.
#[tactic(auto, unfolding(cfg_ast::specs::text::Heads::heads_of))]
pub fn router_class(bytes: &[u8], words: &[Span], scope: Scope) -> Option<HeadClass>
    requires { AllByRecursion (IsWordIn bytes.now) words.now }
    ensures { result ≡ class_in (heads_of scope) (texts bytes.now words.now) }
{
    match scope {
        Scope::Top => top_class(bytes, words),
        Scope::Interface => interface_class(bytes, words),
        Scope::Bgp => bgp_class(bytes, words),
        Scope::Ospf => ospf_class(bytes, words),
    }
}

/// The same in a scope of policy lines.
#[tactic(auto, unfolding(cfg_ast::specs::text::Heads::policy_heads_of))]
pub fn policy_class(bytes: &[u8], words: &[Span], scope: PolicyScope) -> Option<HeadClass>
    requires { AllByRecursion (IsWordIn bytes.now) words.now }
    ensures { result ≡ class_in (policy_heads_of scope) (texts bytes.now words.now) }
{
    match scope {
        PolicyScope::Top => top_class(bytes, words),
        PolicyScope::Entry => entry_class(bytes, words),
    }
}
