//! The top lines of lists and route maps.

ghost use Rattle.std.specs.Prelude.{◌≡◌, OnOk, OnErr, bytes_eq, codes};
ghost use Rattle.std.specs.List.{AllByRecursion};
ghost use Rattle.cfg_ast.specs.declared.items.PolicyItem.TheVariants as item;
ghost use Rattle.cfg_ast.specs.text.Lines.{IsWordIn, texts, text_of};
ghost use Rattle.cfg_ast.specs.text.PolicyLines.{is_policy_line, is_list_word, with_community_line};
ghost use Rattle.cfg_ast.specs.text.Reading.{take_policy};
ghost use Rattle.cfg_stanzas.specs.Changes.{Changes, Sets};

use crate::draft::{Draft, Open, begin_stanza};
use crate::top::ignore;
use base_kit::{NoMemory, Text};
use cfg_ast::{CommunityLine, MapEntry, PolicyItem, PrefixEntry, ReadRefusal, Span};
use cfg_stanzas::repeated;
use std::alloc::Global;

fn is_route_map(bytes: &[u8], word: &Span) -> bool
    requires { IsWordIn bytes.now word.now }
    ensures { result ≡ bytes_eq (text_of bytes.now word.now) (codes "route-map") }
{
    &bytes[word.from as usize..word.upto as usize] == b"route-map".as_slice()
}

fn is_ip(bytes: &[u8], word: &Span) -> bool
    requires { IsWordIn bytes.now word.now }
    ensures { result ≡ bytes_eq (text_of bytes.now word.now) (codes "ip") }
{
    &bytes[word.from as usize..word.upto as usize] == b"ip".as_slice()
}

fn is_prefix_list(bytes: &[u8], word: &Span) -> bool
    requires { IsWordIn bytes.now word.now }
    ensures { result ≡ bytes_eq (text_of bytes.now word.now) (codes "prefix-list") }
{
    &bytes[word.from as usize..word.upto as usize] == b"prefix-list".as_slice()
}

fn is_community_list(bytes: &[u8], word: &Span) -> bool
    requires { IsWordIn bytes.now word.now }
    ensures { result ≡ bytes_eq (text_of bytes.now word.now) (codes "community-list") }
{
    &bytes[word.from as usize..word.upto as usize] == b"community-list".as_slice()
}

fn is_list_word(bytes: &[u8], words: &[Span]) -> bool
    requires { AllByRecursion (IsWordIn bytes.now) words.now }
    ensures { result ≡ is_list_word (texts bytes.now words.now) }
{
    match words {
        [] => false,
        [word, ..] => is_prefix_list(bytes, word) || is_community_list(bytes, word),
    }
}

/// Whether a top line of these words is read as a line of a list or a route map.
#[tactic(auto, unfolding(cfg_ast::specs::text::PolicyLines::is_policy_line))]
pub(crate) fn is_policy_line(bytes: &[u8], words: &[Span]) -> bool
    requires { AllByRecursion (IsWordIn bytes.now) words.now }
    ensures { result ≡ is_policy_line (texts bytes.now words.now) }
{
    match words {
        [] => false,
        [word, others @ ..] => {
            is_route_map(bytes, word) || (is_ip(bytes, word) && is_list_word(bytes, others))
        }
    }
}

#[tactic(auto, unfolding(cfg_ast::specs::text::Reading::take_policy))]
fn add_prefix_entry(
    alloc: Global,
    number: u32,
    name: Text,
    entry: PrefixEntry,
    draft: &mut Draft,
) -> Result<(), ReadRefusal>
    ensures { Changes result draft.new (take_policy number (item.PrefixEntry name entry) draft.old) }
{
    if draft.prefix_lists.has_entry(name.as_str(), entry.seq) {
        return Err(repeated(number));
    }
    draft.prefix_lists.add(alloc, name, entry)?;
    Ok(())
}

fn add_community_line(
    alloc: Global,
    name: Text,
    line: CommunityLine,
    draft: &mut Draft,
) -> Result<(), NoMemory>
    ensures { OnOk result (draft.new ≡ record draft.old { community_lists = with_community_line name line draft.old.community_lists }) }
{
    draft.community_lists.add(alloc, name, line)
}

#[tactic(auto, unfolding(cfg_ast::specs::text::Reading::take_policy))]
fn open_entry(
    number: u32,
    name: Text,
    entry: MapEntry,
    draft: &mut Draft,
) -> Result<(), ReadRefusal>
    ensures set { Sets result draft.new (take_policy number (item.MapHead name entry) draft.old) }
    ensures err { OnErr result (draft.new ≡ draft.old) }
{
    if draft.route_maps.has_entry(name.as_str(), entry.seq) {
        return Err(repeated(number));
    }
    begin_stanza(draft, Open::Entry(name, entry));
    Ok(())
}

/// Adds to the draft what a top line of a list or a route map says.
#[tactic(auto, using(cfg_stanzas::proofs::Changed::set_changes), unfolding(cfg_ast::specs::text::Reading::take_policy))]
pub(crate) fn take_policy(
    alloc: Global,
    number: u32,
    item: PolicyItem,
    draft: &mut Draft,
) -> Result<(), ReadRefusal>
    ensures { Changes result draft.new (take_policy number item draft.old) }
{
    match item {
        PolicyItem::PrefixEntry(name, entry) => {
            add_prefix_entry(alloc, number, name, entry, draft)
        }
        PolicyItem::CommunityLine(name, line) => {
            Ok(add_community_line(alloc, name, line, draft)?)
        }
        PolicyItem::MapHead(name, entry) => open_entry(number, name, entry, draft),
        PolicyItem::Ignored => {
            ignore(draft);
            Ok(())
        }
        _ => Ok(()),
    }
}
