//! The verdict of a map on a set of communities.

ghost use Rattle.std.specs.Prelude.{◌≡◌, ◌∷◌, [], IfOk, if◌then◌else◌, not, filter};
ghost use Rattle.std.specs.List.{list_any};
ghost use Rattle.base_kit.specs.Sets.{with_numbers};
ghost use Rattle.cfg_ast.specs.meaning.Lists.{community_list_permits};
ghost use Rattle.cfg_ast.specs.meaning.Policy.{list_answer, without_deleted_by, after_change};
ghost use Rattle.route_maps.specs.Maps.{entry_holds, comms_after, entry_verdict, verdict};

use crate::plain::{Plain, PlainEntry, Verdict};
use base_kit::{List, NoMemory, NumSet};
use cfg_ast::{Change, CommunityList};
use community_lists::{permits, permits_alone, permits_exact};
use std::alloc::Global;

fn answer(list: &CommunityList, exact: bool, comms: &NumSet) -> bool
    ensures { result ≡ list_answer exact comms.now list.now }
{
    if exact {
        permits_exact(list, comms)
    } else {
        permits(list, comms)
    }
}

fn any_permits(lists: &List<CommunityList>, exact: bool, comms: &NumSet) -> bool
    ensures { result ≡ list_any (list_answer exact comms.now) lists.now }
{
    lists
        .as_slice()
        .iter()
        .any(|list| answer(list, exact, comms))
}

fn holds(entry: &PlainEntry, comms: &NumSet) -> bool
    ensures { result ≡ entry_holds comms.now entry.now }
{
    match &entry.lists {
        Some(lists) => any_permits(lists, entry.exact, comms),
        None => true,
    }
}

fn not_permitted(alloc: Global, list: &CommunityList, comms: &NumSet) -> Result<NumSet, NoMemory>
    ensures { IfOk result (λ s. s ≡ filter (λ c. not (community_list_permits list.now (c ∷ []))) comms.now) }
{
    let kept = comms
        .as_slice()
        .iter()
        .copied()
        .filter(|c| !permits_alone(list, *c))
        .collect(alloc)?;
    Ok(NumSet::from_ascending(alloc, kept))
}

fn without_deleted(
    alloc: Global,
    delete: &Option<CommunityList>,
    comms: &NumSet,
) -> Result<NumSet, NoMemory>
    ensures { IfOk result (λ s. s ≡ without_deleted_by delete.now comms.now) }
{
    match delete {
        Some(list) => not_permitted(alloc, list, comms),
        None => comms.copy(),
    }
}

fn with_all(more: &NumSet, comms: NumSet) -> Result<NumSet, NoMemory>
    ensures { IfOk result (λ s. s ≡ with_numbers more.now comms) }
{
    let mut all = comms;
    for c in more.as_slice() {
        all.add(*c)?;
    }
    Ok(all)
}

fn change_of(alloc: Global, change: &Option<Change>, comms: NumSet) -> Result<NumSet, NoMemory>
    ensures { IfOk result (λ s. s ≡ after_change change.now comms) }
{
    match change {
        Some(Change::Clear) => Ok(NumSet::new(alloc)),
        Some(Change::Replace(by)) => by.copy(),
        Some(Change::Append(more)) => with_all(more, comms),
        None => Ok(comms),
    }
}

fn verdict_of(alloc: Global, entry: &PlainEntry, comms: &NumSet) -> Result<Verdict, NoMemory>
    ensures { IfOk result (λ v. v ≡ entry_verdict entry.now comms.now) }
{
    if !entry.permit {
        return Ok(Verdict::Deny);
    }
    let kept = without_deleted(alloc, &entry.delete, comms)?;
    let comms = change_of(alloc, &entry.change, kept)?;
    Ok(Verdict::Permit {
        lp: entry.lp,
        comms,
        adds: entry.adds,
    })
}

/// The verdict of a map on a set of communities: that of the first entry that holds, or a denial.
pub fn apply(alloc: Global, map: &Plain, comms: &NumSet) -> Result<Verdict, NoMemory>
    ensures { IfOk result (λ v. v ≡ verdict map.now.entries comms.now) }
{
    for entry in map.entries.as_slice() {
        if holds(entry, comms) {
            return verdict_of(alloc, entry, comms);
        }
    }
    Ok(Verdict::Deny)
}
