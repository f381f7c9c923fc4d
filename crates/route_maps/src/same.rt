//! Maps that say the same.

ghost use Rattle.std.specs.Prelude.{◌≡◌, nat_eq};
ghost use Rattle.std.specs.Option.{option_eq};
ghost use Rattle.cfg_ast.specs.meaning.Classes.{same_items};
ghost use Rattle.route_maps.specs.Same.{same_line, same_list, same_match, same_change, same_entry, same_map};

use crate::plain::{Plain, PlainEntry};
use base_kit::List;
use cfg_ast::{Change, CommunityLine, CommunityList};

fn same_line(a: &CommunityLine, b: &CommunityLine) -> bool
    ensures { result ≡ same_line a.now b.now }
{
    a.permit == b.permit && a.comms.as_slice() == b.comms.as_slice()
}

fn same_lines(a: &[CommunityLine], b: &[CommunityLine]) -> bool
    ensures { result ≡ same_items same_line a.now b.now }
{
    if a.len() != b.len() {
        return false;
    }
    for (i, x) in a.iter().enumerate() {
        if !same_line(x, &b[i]) {
            return false;
        }
    }
    true
}

fn same_list(a: &CommunityList, b: &CommunityList) -> bool
    ensures { result ≡ same_list a.now b.now }
{
    same_lines(a.lines.as_slice(), b.lines.as_slice())
}

fn same_lists(a: &[CommunityList], b: &[CommunityList]) -> bool
    ensures { result ≡ same_items same_list a.now b.now }
{
    if a.len() != b.len() {
        return false;
    }
    for (i, x) in a.iter().enumerate() {
        if !same_list(x, &b[i]) {
            return false;
        }
    }
    true
}

fn same_match(a: &PlainEntry, b: &PlainEntry) -> bool
    ensures { result ≡ same_match a.now.exact b.now.exact a.now.lists b.now.lists }
{
    match (&a.lists, &b.lists) {
        (Some(x), Some(y)) => a.exact == b.exact && same_lists(x.as_slice(), y.as_slice()),
        (None, None) => true,
        _ => false,
    }
}

fn same_change(a: &Option<Change>, b: &Option<Change>) -> bool
    ensures { result ≡ option_eq same_change a.now b.now }
{
    match (a, b) {
        (Some(Change::Clear), Some(Change::Clear)) => true,
        (Some(Change::Replace(x)), Some(Change::Replace(y))) => x.as_slice() == y.as_slice(),
        (Some(Change::Append(x)), Some(Change::Append(y))) => x.as_slice() == y.as_slice(),
        (None, None) => true,
        _ => false,
    }
}

fn same_deletion(a: &Option<CommunityList>, b: &Option<CommunityList>) -> bool
    ensures { result ≡ option_eq same_list a.now b.now }
{
    match (a, b) {
        (Some(x), Some(y)) => same_list(x, y),
        (None, None) => true,
        _ => false,
    }
}

fn same_entry(a: &PlainEntry, b: &PlainEntry) -> bool
    ensures { result ≡ same_entry a.now b.now }
{
    a.seq == b.seq
        && a.permit == b.permit
        && same_match(a, b)
        && a.lp == b.lp
        && same_change(&a.change, &b.change)
        && same_deletion(&a.delete, &b.delete)
        && a.adds == b.adds
}

fn same_entries(a: &[PlainEntry], b: &[PlainEntry]) -> bool
    ensures { result ≡ same_items same_entry a.now b.now }
{
    if a.len() != b.len() {
        return false;
    }
    for (i, x) in a.iter().enumerate() {
        if !same_entry(x, &b[i]) {
            return false;
        }
    }
    true
}

/// Whether two maps are the same except for the names of their lists and line numbers: the same entries
/// in order, with the same numbers, matches, preferences, changes, deletions and counts.
#[tactic(auto, unfolding(crate::specs::Same::same_map))]
pub fn same_map(a: &Plain, b: &Plain) -> bool
    ensures { result ≡ same_map a.now b.now }
{
    same_entries(a.entries.as_slice(), b.entries.as_slice())
}
