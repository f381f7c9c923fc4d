//! Maps that name only communities of a set.

ghost use Rattle.std.specs.Prelude.{◌≡◌, true};
ghost use Rattle.std.specs.List.{AllByRecursion};
ghost use Rattle.route_maps.specs.Within.{AreWithin, IsLineWithin, IsListWithin, AreListsWithin, IsChangeWithin, IsEntryWithin, IsMapWithin};

use base_kit::NumSet;
use cfg_ast::{Change, CommunityLine, CommunityList};
use route_maps::{Plain, PlainEntry};

fn are_within(set: &NumSet, communities: &[u32]) -> bool
    ensures { result ≡ true → AreWithin set.now communities.now }
{
    match communities {
        [] => true,
        [community, rest @ ..] => set.has(*community) && are_within(set, rest),
    }
}

fn are_lines_within(set: &NumSet, lines: &[CommunityLine]) -> bool
    ensures { result ≡ true → AllByRecursion (IsLineWithin set.now) lines.now }
{
    match lines {
        [] => true,
        [line, rest @ ..] => are_within(set, line.comms.as_slice()) && are_lines_within(set, rest),
    }
}

fn is_list_within(set: &NumSet, list: &CommunityList) -> bool
    ensures { result ≡ true → IsListWithin set.now list.now }
{
    are_lines_within(set, list.lines.as_slice())
}

fn are_lists_within(set: &NumSet, lists: &[CommunityList]) -> bool
    ensures { result ≡ true → AreListsWithin set.now lists.now }
{
    match lists {
        [] => true,
        [list, rest @ ..] => is_list_within(set, list) && are_lists_within(set, rest),
    }
}

fn is_change_within(set: &NumSet, change: &Change) -> bool
    ensures { result ≡ true → IsChangeWithin set.now change.now }
{
    match change {
        Change::Clear => true,
        Change::Replace(by) => are_within(set, by.as_slice()),
        Change::Append(more) => are_within(set, more.as_slice()),
    }
}

fn is_entry_within(set: &NumSet, entry: &PlainEntry) -> bool
    ensures { result ≡ true → IsEntryWithin set.now entry.now }
{
    if let Some(lists) = &entry.lists {
        if !are_lists_within(set, lists.as_slice()) {
            return false;
        }
    }
    if let Some(change) = &entry.change {
        if !is_change_within(set, change) {
            return false;
        }
    }
    if let Some(list) = &entry.delete {
        return is_list_within(set, list);
    }
    true
}

fn are_entries_within(set: &NumSet, entries: &[PlainEntry]) -> bool
    ensures { result ≡ true → AllByRecursion (IsEntryWithin set.now) entries.now }
{
    match entries {
        [] => true,
        [entry, rest @ ..] => is_entry_within(set, entry) && are_entries_within(set, rest),
    }
}

/// Whether the map's lists, changes and deletion lists name only communities of the set.
pub fn is_within(set: &NumSet, map: &Plain) -> bool
    ensures { result ≡ true → IsMapWithin set.now map.now }
{
    are_entries_within(set, map.entries.as_slice())
}
