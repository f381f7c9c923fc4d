//! The printed lines of prefix lists and community lists.

ghost use Rattle.std.specs.Prelude.{◌≡◌, ◌+◌, ◌≤◌, ◌++◌, ◌∷◌, [], OnOk, string_bytes, length, flat_map, map, is_some};
ghost use Rattle.cfg_ast.specs.text.Words.{number_between, number_word};
ghost use Rattle.cfg_ast.specs.printing.Printed.{line_text, lines_text, closing, community_text, bound_words, prefix_entry_line, prefix_list_lines, community_list_name, community_list_line, community_list_lines};
ghost use Rattle.printed_words.specs.Spaced.{spaced_words};
ghost use Rattle.cfg_print.specs.Fronts.{prefix_words};

use crate::words::{act_word, put, put_act, put_around};
use base_kit::{List, read_number};
use cfg_ast::{CommunityLine, CommunityList, PrefixEntry, PrefixList};
use printed_words::{Piece, add_number, add_octet, add_prefix, put_communities};
use std::alloc::AllocError;

// A bound behind its word, if there is one.
#[tactic(auto, unfolding(cfg_ast::specs::printing::Printed::bound_words))]
fn add_bound(piece: &mut Piece, word: &str, bound: Option<u8>)
    requires short { length word.now ≤ 2 }
    requires room { length piece.old.bytes + 7 ≤ 64 }
    ensures bytes { piece.new.bytes ≡ piece.old.bytes ++ spaced_words (bound_words word.now bound) }
    ensures len { length piece.new.bytes ≤ length piece.old.bytes + 7 }
{
    if let Some(bound) = bound {
        piece.push_str(" ");
        piece.push_str(word);
        piece.push_str(" ");
        add_octet(piece, bound);
    }
}

// An entry from its number up to its prefix.
#[tactic(auto, unfolding(crate::specs::Fronts::prefix_words))]
fn prefix_words(entry: &PrefixEntry) -> Piece
    ensures bytes { result.bytes ≡ prefix_words entry.now }
    ensures len { length result.bytes ≤ 42 }
{
    let mut words = Piece::new();
    words.push_str(" seq ");
    add_number(&mut words, entry.seq);
    words.push_str(act_word(entry.permit));
    words.push_str(" ");
    add_prefix(&mut words, &entry.prefix);
    words
}

fn put_prefix_entry(text: &mut String, name: &str, entry: &PrefixEntry) -> Result<(), AllocError>
    ensures { OnOk result (string_bytes text.new ≡ string_bytes text.old ++ line_text (prefix_entry_line name.now entry.now)) }
{
    let mut words = prefix_words(entry);
    add_bound(&mut words, "ge", entry.ge);
    add_bound(&mut words, "le", entry.le);
    words.push_str("\n");
    put_around(text, "ip prefix-list ", name, words.as_str())
}

fn put_prefix_list(text: &mut String, list: &PrefixList) -> Result<(), AllocError>
    ensures { OnOk result (string_bytes text.new ≡ string_bytes text.old ++ lines_text (map (prefix_entry_line list.now.name) list.now.entries)) }
{
    let name = list.name.as_str();
    let entries = list.entries.as_slice();
    for entry in entries {
        put_prefix_entry(text, name, entry)?;
    }
    Ok(())
}

fn put_prefix_entries(text: &mut String, lists: &[PrefixList]) -> Result<(), AllocError>
    ensures { OnOk result (string_bytes text.new ≡ string_bytes text.old ++ lines_text (flat_map (λ l. map (prefix_entry_line l.name) l.entries) lists.now)) }
{
    for list in lists {
        put_prefix_list(text, list)?;
    }
    Ok(())
}

/// Appends the entries of all prefix lists, and a closing line if there are any.
#[tactic(auto, using(crate::proofs::Joined::closed_some, crate::proofs::Joined::closed_none))]
pub(crate) fn put_prefix_lists(
    text: &mut String,
    lists: &List<PrefixList>,
) -> Result<(), AllocError>
    ensures { OnOk result (string_bytes text.new ≡ string_bytes text.old ++ lines_text (prefix_list_lines lists.now)) }
{
    let before = text.len();
    put_prefix_entries(text, lists.as_slice())?;
    if text.len() > before {
        return text.push_str("!\n");
    }
    Ok(())
}

#[tactic(auto, unfolding(cfg_ast::specs::text::Words::number_between, cfg_ast::specs::text::Words::number_word))]
fn is_list_number(name: &str) -> bool
    ensures { result ≡ is_some (number_between 1 99 name.now) }
{
    match read_number(name.as_bytes()) {
        Some(number) => 1 <= number && number <= 99,
        None => false,
    }
}

fn put_list_name(text: &mut String, name: &str) -> Result<(), AllocError>
    ensures { OnOk result (string_bytes text.new ≡ string_bytes text.old ++ spaced_words (community_list_name name.now)) }
{
    text.push_str(if is_list_number(name) {
        " "
    } else {
        " standard "
    })?;
    text.push_str(name)
}

fn put_community_line(text: &mut String, name: &str, line: &CommunityLine) -> Result<(), AllocError>
    ensures { OnOk result (string_bytes text.new ≡ string_bytes text.old ++ line_text (community_list_line name.now line.now)) }
{
    put(text, "ip community-list")?;
    put_list_name(text, name)?;
    put_act(text, line.permit)?;
    put_communities(text, &line.comms)?;
    put(text, "\n")
}

fn put_community_list(text: &mut String, list: &CommunityList) -> Result<(), AllocError>
    ensures { OnOk result (string_bytes text.new ≡ string_bytes text.old ++ lines_text (map (community_list_line list.now.name) list.now.lines)) }
{
    let name = list.name.as_str();
    let lines = list.lines.as_slice();
    for line in lines {
        put_community_line(text, name, line)?;
    }
    Ok(())
}

fn put_community_entries(text: &mut String, lists: &[CommunityList]) -> Result<(), AllocError>
    ensures { OnOk result (string_bytes text.new ≡ string_bytes text.old ++ lines_text (flat_map (λ l. map (community_list_line l.name) l.lines) lists.now)) }
{
    for list in lists {
        put_community_list(text, list)?;
    }
    Ok(())
}

/// Appends the lines of all community lists, and a closing line if there are any.
#[tactic(auto, using(crate::proofs::Joined::closed_some, crate::proofs::Joined::closed_none))]
pub(crate) fn put_community_lists(
    text: &mut String,
    lists: &List<CommunityList>,
) -> Result<(), AllocError>
    ensures { OnOk result (string_bytes text.new ≡ string_bytes text.old ++ lines_text (community_list_lines lists.now)) }
{
    let before = text.len();
    put_community_entries(text, lists.as_slice())?;
    if text.len() > before {
        return text.push_str("!\n");
    }
    Ok(())
}
