//! A map as it is written: its entries and its lists.

ghost use Rattle.std.specs.Prelude.{◌≡◌, ◌++◌, map, replicate, IfOk, OnOk};
ghost use Rattle.std.specs.List.{enumerate_from};
ghost use Rattle.cfg_ast.specs.printing.Bare.{bare_community_line};
ghost use Rattle.config_emit.specs.Maps.{passes_all, is_whole, map_name, match_name, deletion_name, written_list, match_list, match_lists, deletion_lists, lists_of_entry, lists_of_map, name_of_list, written_prepend, written_entry, denying_entry, written_entries, written_map};

use crate::number::numbered;
use base_kit::{List, NoMemory, Text};
use cfg_ast::{CommunityLine, CommunityList, MapEntry, NameLine, Named, Prepend, RouteMap};
use route_maps::{Plain, PlainEntry, change_copy};
use std::alloc::Global;

fn passes_all(entry: &PlainEntry) -> bool
    ensures { result ≡ passes_all entry.now }
{
    entry.permit
        && entry.lists.is_none()
        && entry.lp.is_none()
        && entry.change.is_none()
        && entry.delete.is_none()
        && entry.adds == 0
}

/// Whether the map permits all and sets nothing, so that it is written as no line.
pub(crate) fn is_whole(plain: &Plain) -> bool
    ensures { result ≡ is_whole plain.now.entries }
{
    match plain.entries.as_slice() {
        [entry] => passes_all(entry),
        _ => false,
    }
}

/// The name of map `k`.
pub(crate) fn map_name(alloc: Global, k: usize) -> Result<Text, NoMemory>
    ensures { IfOk result (λ name. name ≡ map_name k) }
{
    numbered(alloc, "POLICY-", k)
}

// The name of the i-th list that an entry of map `k` matches.
fn match_name(alloc: Global, k: usize, seq: u32, i: usize) -> Result<Text, NoMemory>
    ensures { IfOk result (λ name. name ≡ match_name k seq i) }
{
    let name = format!(in alloc; "POLICY-{k}-{seq}-{i}")?;
    Ok(Text::from_string(name))
}

// The name of the deletion list of an entry of map `k`.
fn deletion_name(alloc: Global, k: usize, seq: u32) -> Result<Text, NoMemory>
    ensures { IfOk result (λ name. name ≡ deletion_name k seq) }
{
    let name = format!(in alloc; "POLICY-{k}-{seq}-D")?;
    Ok(Text::from_string(name))
}

fn bare_line(line: &CommunityLine) -> Result<CommunityLine, NoMemory>
    ensures { IfOk result (λ l. l ≡ bare_community_line line.now) }
{
    Ok(CommunityLine {
        permit: line.permit,
        comms: line.comms.copy()?,
        line: 0,
    })
}

fn bare_lines(alloc: Global, lines: &List<CommunityLine>) -> Result<List<CommunityLine>, NoMemory>
    ensures { IfOk result (λ ls. ls ≡ map bare_community_line lines.now) }
{
    let mut bare = List::new(alloc);
    for line in lines.as_slice() {
        bare.push(bare_line(line)?)?;
    }
    Ok(bare)
}

fn written_list(alloc: Global, name: Text, list: &CommunityList) -> Result<CommunityList, NoMemory>
    ensures { IfOk result (λ l. l ≡ written_list name list.now) }
{
    Ok(CommunityList {
        name,
        lines: bare_lines(alloc, &list.lines)?,
    })
}

fn match_list(
    alloc: Global,
    k: usize,
    seq: u32,
    i: usize,
    list: &CommunityList,
) -> Result<CommunityList, NoMemory>
    ensures { IfOk result (λ l. l ≡ match_list k seq (i, list.now)) }
{
    let name = match_name(alloc, k, seq, i)?;
    written_list(alloc, name, list)
}

fn push_match_lists(
    alloc: Global,
    found: &mut List<CommunityList>,
    k: usize,
    seq: u32,
    lists: &[CommunityList],
) -> Result<(), NoMemory>
    ensures { OnOk result (found.new ≡ found.old ++ map (match_list k seq) (enumerate_from 1 lists.now)) }
{
    for i in 0..lists.len() {
        found.push(match_list(alloc, k, seq, i + 1, &lists[i])?)?;
    }
    Ok(())
}

fn push_some_match_lists(
    alloc: Global,
    found: &mut List<CommunityList>,
    k: usize,
    entry: &PlainEntry,
) -> Result<(), NoMemory>
    ensures { OnOk result (found.new ≡ found.old ++ match_lists k entry.now) }
{
    match &entry.lists {
        Some(lists) => push_match_lists(alloc, found, k, entry.seq, lists.as_slice()),
        None => Ok(()),
    }
}

fn push_deletion_list(
    alloc: Global,
    found: &mut List<CommunityList>,
    k: usize,
    entry: &PlainEntry,
) -> Result<(), NoMemory>
    ensures { OnOk result (found.new ≡ found.old ++ deletion_lists k entry.now) }
{
    match &entry.delete {
        Some(list) => {
            let name = deletion_name(alloc, k, entry.seq)?;
            found.push(written_list(alloc, name, list)?)?;
            Ok(())
        }
        None => Ok(()),
    }
}

fn push_lists_of_entry(
    alloc: Global,
    found: &mut List<CommunityList>,
    k: usize,
    entry: &PlainEntry,
) -> Result<(), NoMemory>
    ensures { OnOk result (found.new ≡ found.old ++ lists_of_entry k entry.now) }
{
    push_some_match_lists(alloc, found, k, entry)?;
    push_deletion_list(alloc, found, k, entry)
}

/// Appends the community lists that map `k` names.
pub(crate) fn push_lists_of_map(
    alloc: Global,
    found: &mut List<CommunityList>,
    k: usize,
    plain: &Plain,
) -> Result<(), NoMemory>
    ensures { OnOk result (found.new ≡ found.old ++ lists_of_map (k, plain.now)) }
{
    for entry in plain.entries.as_slice() {
        push_lists_of_entry(alloc, found, k, entry)?;
    }
    Ok(())
}

fn list_names(
    alloc: Global,
    k: usize,
    seq: u32,
    lists: &[CommunityList],
) -> Result<List<Text>, NoMemory>
    ensures { IfOk result (λ names. names ≡ map name_of_list (map (match_list k seq) (enumerate_from 1 lists.now))) }
{
    let mut names = List::new(alloc);
    for i in 0..lists.len() {
        names.push(match_name(alloc, k, seq, i + 1)?)?;
    }
    Ok(names)
}

fn names_line(alloc: Global, k: usize, entry: &PlainEntry) -> Result<Option<NameLine>, NoMemory>
    ensures { IfOk result (λ line. line ≡ (written_entry 0 k entry.now).comms) }
{
    match &entry.lists {
        Some(lists) => Ok(Some(NameLine {
            names: list_names(alloc, k, entry.seq, lists.as_slice())?,
            line: 0,
        })),
        None => Ok(None),
    }
}

fn named_deletion(alloc: Global, k: usize, entry: &PlainEntry) -> Result<Option<Named>, NoMemory>
    ensures { IfOk result (λ name. name ≡ (written_entry 0 k entry.now).delete) }
{
    match &entry.delete {
        Some(_) => Ok(Some(Named {
            name: deletion_name(alloc, k, entry.seq)?,
            line: 0,
        })),
        None => Ok(None),
    }
}

fn repeated(alloc: Global, number: u32, count: u8) -> Result<List<u32>, NoMemory>
    ensures { IfOk result (λ numbers. numbers ≡ replicate count number) }
{
    let mut numbers = List::new(alloc);
    for i in 0..count {
        numbers.push(number)?;
    }
    Ok(numbers)
}

// The AS number of the router, as many times as the entry adds numbers.
fn written_prepend(alloc: Global, number: u32, adds: u8) -> Result<Option<Prepend>, NoMemory>
    ensures { IfOk result (λ prepend. prepend ≡ written_prepend number adds) }
{
    if adds == 0 {
        return Ok(None);
    }
    Ok(Some(Prepend {
        numbers: repeated(alloc, number, adds)?,
        line: 0,
    }))
}

fn written_entry(
    alloc: Global,
    number: u32,
    k: usize,
    entry: &PlainEntry,
) -> Result<MapEntry, NoMemory>
    ensures { IfOk result (λ e. e ≡ written_entry number k entry.now) }
{
    Ok(MapEntry {
        seq: entry.seq,
        permit: entry.permit,
        line: 0,
        prefixes: None,
        comms: names_line(alloc, k, entry)?,
        exact: entry.lists.is_some() && entry.exact,
        lp: entry.lp,
        change: change_copy(&entry.change)?,
        change_line: 0,
        delete: named_deletion(alloc, k, entry)?,
        prepend: written_prepend(alloc, number, entry.adds)?,
    })
}

// `deny 10`
fn denying_entry() -> MapEntry
    ensures { result ≡ denying_entry }
{
    MapEntry {
        seq: 10,
        permit: false,
        line: 0,
        prefixes: None,
        comms: None,
        exact: false,
        lp: None,
        change: None,
        change_line: 0,
        delete: None,
        prepend: None,
    }
}

fn push_entries(
    alloc: Global,
    found: &mut List<MapEntry>,
    number: u32,
    k: usize,
    entries: &[PlainEntry],
) -> Result<(), NoMemory>
    ensures { OnOk result (found.new ≡ found.old ++ map (written_entry number k) entries.now) }
{
    for entry in entries {
        found.push(written_entry(alloc, number, k, entry)?)?;
    }
    Ok(())
}

fn written_entries(
    alloc: Global,
    number: u32,
    k: usize,
    entries: &[PlainEntry],
) -> Result<List<MapEntry>, NoMemory>
    ensures { IfOk result (λ es. es ≡ written_entries number k entries.now) }
{
    let mut found = List::new(alloc);
    match entries {
        [] => found.push(denying_entry())?,
        _ => push_entries(alloc, &mut found, number, k, entries)?,
    }
    Ok(found)
}

/// Map `k` of the router with that AS number.
pub(crate) fn written_map(
    alloc: Global,
    number: u32,
    k: usize,
    plain: &Plain,
) -> Result<RouteMap, NoMemory>
    ensures { IfOk result (λ m. m ≡ written_map number (k, plain.now)) }
{
    Ok(RouteMap {
        name: map_name(alloc, k)?,
        entries: written_entries(alloc, number, k, plain.entries.as_slice())?,
    })
}
