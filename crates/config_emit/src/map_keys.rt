//! What a map says, as a key that names do not change.

ghost use Rattle.std.specs.Prelude.{◌≡◌, map, IfOk};
ghost use Rattle.std.specs.Option.{option_map};
ghost use Rattle.config_emit.specs.MapKeys.{line_shown, list_shown, lists_shown, change_shown, entry_shown, shown, line_said, list_said, lists_said, entry_said, said_of_map};

use base_kit::{List, NoMemory};
use cfg_ast::{Change, CommunityLine, CommunityList};
use route_maps::{Plain, PlainEntry};
use std::alloc::Global;

/// What a line of a community list says.
#[derive(PartialEq, Eq, Hash, Drop)]
pub(crate) struct LineKey {
    pub(crate) permit: bool,
    pub(crate) comms: Vec<u32>,
}

/// What an entry does with the communities.
#[derive(PartialEq, Eq, Hash, Drop)]
pub(crate) enum ChangeKey {
    Clear,
    Replace(Vec<u32>),
    Append(Vec<u32>),
}

/// What an entry of a plain map says, without the names of its lists and without line numbers.
#[derive(PartialEq, Eq, Hash, Drop)]
pub(crate) struct EntryKey {
    pub(crate) seq: u32,
    pub(crate) permit: bool,
    pub(crate) exact: bool,
    pub(crate) lists: Option<Vec<Vec<LineKey>>>,
    pub(crate) lp: Option<u32>,
    pub(crate) change: Option<ChangeKey>,
    pub(crate) delete: Option<Vec<LineKey>>,
    pub(crate) adds: u8,
}

fn line_key(alloc: Global, line: &CommunityLine) -> Result<LineKey, NoMemory>
    ensures { IfOk result (λ key. line_shown key ≡ line_said line.now) }
{
    Ok(LineKey {
        permit: line.permit,
        comms: Vec::from_slice(alloc, line.comms.as_slice())?,
    })
}

fn list_key(alloc: Global, list: &CommunityList) -> Result<Vec<LineKey>, NoMemory>
    ensures { IfOk result (λ key. list_shown key ≡ list_said list.now) }
{
    let mut key = Vec::new(alloc);
    for line in list.lines.as_slice() {
        key.push(line_key(alloc, line)?)?;
    }
    Ok(key)
}

fn lists_key(alloc: Global, lists: &List<CommunityList>) -> Result<Vec<Vec<LineKey>>, NoMemory>
    ensures { IfOk result (λ key. lists_shown key ≡ lists_said lists.now) }
{
    let mut key = Vec::new(alloc);
    for list in lists.as_slice() {
        key.push(list_key(alloc, list)?)?;
    }
    Ok(key)
}

fn some_lists_key(
    alloc: Global,
    lists: &Option<List<CommunityList>>,
) -> Result<Option<Vec<Vec<LineKey>>>, NoMemory>
    ensures { IfOk result (λ key. option_map lists_shown key ≡ option_map lists_said lists.now) }
{
    match lists {
        Some(lists) => Ok(Some(lists_key(alloc, lists)?)),
        None => Ok(None),
    }
}

fn some_list_key(
    alloc: Global,
    list: &Option<CommunityList>,
) -> Result<Option<Vec<LineKey>>, NoMemory>
    ensures { IfOk result (λ key. option_map list_shown key ≡ option_map list_said list.now) }
{
    match list {
        Some(list) => Ok(Some(list_key(alloc, list)?)),
        None => Ok(None),
    }
}

fn change_key(alloc: Global, change: &Option<Change>) -> Result<Option<ChangeKey>, NoMemory>
    ensures { IfOk result (λ key. option_map change_shown key ≡ change.now) }
{
    match change {
        Some(Change::Clear) => Ok(Some(ChangeKey::Clear)),
        Some(Change::Replace(by)) => {
            let comms = Vec::from_slice(alloc, by.as_slice())?;
            Ok(Some(ChangeKey::Replace(comms)))
        }
        Some(Change::Append(more)) => {
            let comms = Vec::from_slice(alloc, more.as_slice())?;
            Ok(Some(ChangeKey::Append(comms)))
        }
        None => Ok(None),
    }
}

fn entry_key(alloc: Global, entry: &PlainEntry) -> Result<EntryKey, NoMemory>
    ensures { IfOk result (λ key. entry_shown key ≡ entry_said entry.now) }
{
    Ok(EntryKey {
        seq: entry.seq,
        permit: entry.permit,
        exact: entry.lists.is_some() && entry.exact,
        lists: some_lists_key(alloc, &entry.lists)?,
        lp: entry.lp,
        change: change_key(alloc, &entry.change)?,
        delete: some_list_key(alloc, &entry.delete)?,
        adds: entry.adds,
    })
}

/// What a plain map says.
pub(crate) fn map_key(alloc: Global, map: &Plain) -> Result<Vec<EntryKey>, NoMemory>
    ensures { IfOk result (λ key. shown key ≡ said_of_map map.now) }
{
    let mut key = Vec::new(alloc);
    for entry in map.entries.as_slice() {
        key.push(entry_key(alloc, entry)?)?;
    }
    Ok(key)
}
