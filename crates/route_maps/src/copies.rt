//! Copies of maps and lists.

ghost use Rattle.std.specs.Prelude.{◌≡◌, IfOk};

use crate::plain::{Plain, PlainEntry};
use base_kit::{List, NoMemory, Text};
use cfg_ast::{Change, CommunityLine, CommunityList};
use std::alloc::Global;

fn line_copy(line: &CommunityLine) -> Result<CommunityLine, NoMemory>
    ensures { IfOk result (λ copy. copy ≡ line.now) }
{
    Ok(CommunityLine {
        permit: line.permit,
        comms: line.comms.copy()?,
        line: line.line,
    })
}

fn lines_copy(alloc: Global, lines: &List<CommunityLine>) -> Result<List<CommunityLine>, NoMemory>
    ensures { IfOk result (λ copy. copy ≡ lines.now) }
{
    let mut copies = List::new(alloc);
    for line in lines.as_slice() {
        copies.push(line_copy(line)?)?;
    }
    Ok(copies)
}

/// A copy of a community list.
pub fn list_copy(alloc: Global, list: &CommunityList) -> Result<CommunityList, NoMemory>
    ensures { IfOk result (λ copy. copy ≡ list.now) }
{
    Ok(CommunityList {
        name: Text::copy_of(alloc, list.name.as_str())?,
        lines: lines_copy(alloc, &list.lines)?,
    })
}

/// A copy of a change.
pub fn change_copy(change: &Option<Change>) -> Result<Option<Change>, NoMemory>
    ensures { IfOk result (λ copy. copy ≡ change.now) }
{
    match change {
        Some(Change::Clear) => Ok(Some(Change::Clear)),
        Some(Change::Replace(by)) => Ok(Some(Change::Replace(by.copy()?))),
        Some(Change::Append(more)) => Ok(Some(Change::Append(more.copy()?))),
        None => Ok(None),
    }
}

fn all_lists_copy(
    alloc: Global,
    lists: &List<CommunityList>,
) -> Result<List<CommunityList>, NoMemory>
    ensures { IfOk result (λ copy. copy ≡ lists.now) }
{
    let mut copies = List::new(alloc);
    for list in lists.as_slice() {
        copies.push(list_copy(alloc, list)?)?;
    }
    Ok(copies)
}

fn lists_copy(
    alloc: Global,
    lists: &Option<List<CommunityList>>,
) -> Result<Option<List<CommunityList>>, NoMemory>
    ensures { IfOk result (λ copy. copy ≡ lists.now) }
{
    match lists {
        Some(lists) => Ok(Some(all_lists_copy(alloc, lists)?)),
        None => Ok(None),
    }
}

fn deletion_copy(
    alloc: Global,
    delete: &Option<CommunityList>,
) -> Result<Option<CommunityList>, NoMemory>
    ensures { IfOk result (λ copy. copy ≡ delete.now) }
{
    match delete {
        Some(list) => Ok(Some(list_copy(alloc, list)?)),
        None => Ok(None),
    }
}

fn entry_copy(alloc: Global, entry: &PlainEntry) -> Result<PlainEntry, NoMemory>
    ensures { IfOk result (λ copy. copy ≡ entry.now) }
{
    Ok(PlainEntry {
        seq: entry.seq,
        permit: entry.permit,
        lists: lists_copy(alloc, &entry.lists)?,
        lp: entry.lp,
        change: change_copy(&entry.change)?,
        delete: deletion_copy(alloc, &entry.delete)?,
        adds: entry.adds,
        exact: entry.exact,
    })
}

/// A copy of a map.
pub fn map_copy(alloc: Global, map: &Plain) -> Result<Plain, NoMemory>
    ensures { IfOk result (λ copy. copy ≡ map.now) }
{
    let mut entries = List::new(alloc);
    for entry in map.entries.as_slice() {
        entries.push(entry_copy(alloc, entry)?)?;
    }
    Ok(Plain { entries })
}
