//! The forms of a solution's line.

ghost use Rattle.std.specs.Prelude.{◌≡◌, ◌≤◌, ◌<◌, ◌∷◌, ◌++◌, [], IfOk, IfSome, replicate, Some, option_map, option_and_then, MatchOption, OnOk};
ghost use Rattle.cfg_ast.specs.text.Lines.{words_of};
ghost use Rattle.cfg_ast.specs.text.Words.{community_word};
ghost use Rattle.base_kit.specs.Sets.{IsAscending};
ghost use Rattle.solution_text.specs.Forms.{is_star, piece_of, path_of_words, above, community_above, communities_above, bgp_route, bgp_label_form, ospf_label_form, none_form, label_form};

use base_kit::{List, NoMemory, NumSet};
use cfg_lex::next_word;
use cfg_words::marks::{behind, has, place_of};
use cfg_words::{read_as_number, read_between, read_community, read_number};
use srp_core::Route;
use std::alloc::Global;

// ---- paths

// An AS number, and how often a word of a path says it.
#[derive(Clone, Copy)]
struct Piece {
    number: u32,
    times: u32,
}

#[tactic(auto, unfolding(crate::specs::Forms::piece_of))]
fn read_piece(word: &[u8]) -> Option<Piece>
    ensures { option_map (λ piece. replicate piece.times piece.number) result ≡ piece_of word.now }
{
    if !has(word, b'*') {
        let number = read_as_number(word)?;
        return Some(Piece { number, times: 1 });
    }
    let star = place_of(word, b'*');
    let number = read_as_number(&word[..star])?;
    let times = read_between(behind(word, star), 2, 11)?;
    Some(Piece { number, times })
}

fn put_piece(path: &mut Vec<u32>, piece: Piece) -> Result<(), NoMemory>
    ensures { OnOk result (path.new.items ≡ path.old.items ++ replicate piece.times piece.number) }
{
    for _i in 0..piece.times {
        path.push(piece.number)?;
    }
    Ok(())
}

// The numbers of a path up to the word `comms`, and the line behind it.
fn read_path(alloc: Global, line: &[u8]) -> Result<Option<(Vec<u32>, &[u8])>, NoMemory>
    ensures { IfOk result (λ cut. option_map (λ cut. (cut.0.items, words_of cut.1.now)) cut ≡ path_of_words (words_of line.now)) }
{
    let mut path = Vec::new(alloc);
    let mut rest = line;
    while let Some((word, more)) = next_word(rest) {
        if word == b"comms".as_slice() {
            return Ok(Some((path, more)));
        }
        match read_piece(word) {
            Some(piece) => put_piece(&mut path, piece)?,
            None => return Ok(None),
        }
        rest = more;
    }
    Ok(None)
}

// ---- communities

// A community above the bound that is not well-known.
#[tactic(auto, unfolding(crate::specs::Forms::community_above))]
fn read_above(bound: u32, word: &[u8]) -> Option<u32>
    ensures value { result ≡ community_above bound word.now }
    ensures higher { IfSome result (λ community. bound < community) }
{
    let community = read_community(word)?;
    if bound < community && community < 4_294_901_760 {
        Some(community)
    } else {
        None
    }
}

// The communities of a line, which ascend.
fn read_communities(alloc: Global, line: &[u8]) -> Result<Option<NumSet>, NoMemory>
    ensures { IfOk result (λ comms. comms ≡ communities_above 0 (words_of line.now)) }
{
    let mut comms = Vec::new(alloc);
    let mut bound = 0;
    let mut rest = line;
    while let Some((word, more)) = next_word(rest) {
        match read_above(bound, word) {
            Some(community) => {
                comms.push(community)?;
                bound = community;
            }
            None => return Ok(None),
        }
        rest = more;
    }
    Ok(Some(NumSet::from_ascending(alloc, comms)))
}

// ---- labels

fn bgp_route(alloc: Global, lp: u32, line: &[u8]) -> Result<Option<Route>, NoMemory>
    ensures { IfOk result (λ route. route ≡ option_and_then (bgp_route lp) (path_of_words (words_of line.now))) }
{
    match read_path(alloc, line)? {
        None => Ok(None),
        Some((path, rest)) => match read_communities(alloc, rest)? {
            None => Ok(None),
            Some(comms) => Ok(Some(Route::Bgp {
                lp,
                path: List::from_vec(path),
                comms,
            })),
        },
    }
}

#[tactic(auto, unfolding(crate::specs::Forms::bgp_label_form))]
fn bgp_form(alloc: Global, line: &[u8]) -> Result<Option<Route>, NoMemory>
    ensures { IfOk result (λ route. route ≡ bgp_label_form (words_of line.now)) }
{
    let Some((preference, rest)) = next_word(line) else {
        return Ok(None);
    };
    let Some((mark, rest)) = next_word(rest) else {
        return Ok(None);
    };
    if mark != b"path".as_slice() {
        return Ok(None);
    }
    match read_number(preference) {
        Some(lp) => bgp_route(alloc, lp, rest),
        None => Ok(None),
    }
}

// The number on a line of one word.
fn cost_form(line: &[u8]) -> Option<Route>
    ensures { result ≡ ospf_label_form (words_of line.now) }
{
    let (word, rest) = next_word(line)?;
    match next_word(rest) {
        Some(_) => None,
        None => {
            let cost = read_number(word)?;
            Some(Route::Ospf { cost })
        }
    }
}

/// The label on the line behind a router's name: of the word that says its kind, and the rest.
#[tactic(auto, unfolding(crate::specs::Forms::label_form))]
pub(crate) fn label_form(
    alloc: Global,
    kind: &[u8],
    line: &[u8],
) -> Result<Option<Option<Route>>, NoMemory>
    ensures { IfOk result (λ label. label ≡ label_form kind.now (words_of line.now)) }
{
    if kind == b"none".as_slice() {
        return match next_word(line) {
            Some(_) => Ok(None),
            None => Ok(Some(None)),
        };
    }
    if kind == b"cost".as_slice() {
        return match cost_form(line) {
            Some(route) => Ok(Some(Some(route))),
            None => Ok(None),
        };
    }
    if kind == b"bgp".as_slice() {
        return match bgp_form(alloc, line)? {
            Some(route) => Ok(Some(Some(route))),
            None => Ok(None),
        };
    }
    Ok(None)
}
