//! Lists by which entries delete communities.

ghost use Rattle.std.specs.Prelude.{◌≡◌, IfOk, flat_map, length, nat_lt};
ghost use Rattle.cfg_ast.specs.meaning.PolicyFaults.{several_at, several_in, wide_deletions_of};
ghost use Rattle.cfg_check.specs.LeastLine.{least_line};
ghost use Rattle.numbered_names.specs.NameSets.{has_name};

use crate::least::{lesser_line, with_line_if};
use crate::name_sets::deleted_names;
use base_kit::NoMemory;
use cfg_ast::{CommunityLine, CommunityList, Router};
use numbered_names::NameSet;
use std::alloc::Global;

fn names_several(line: &CommunityLine) -> bool
    ensures { result ≡ nat_lt 1 (length line.now.comms) }
{
    line.comms.as_slice().len() > 1
}

fn several_in_lines(lines: &[CommunityLine]) -> Option<u32>
    ensures { result ≡ least_line (flat_map several_at lines.now) }
{
    let mut least = None;
    for line in lines {
        least = with_line_if(least, names_several(line), line.line);
    }
    least
}

fn several_in_list(names: &NameSet<'_>, list: &CommunityList) -> Option<u32>
    ensures { result ≡ least_line (several_in (has_name names.now) list.now) }
{
    if !names.contains(list.name.as_str()) {
        return None;
    }
    several_in_lines(list.lines.as_slice())
}

fn several_in_lists(names: &NameSet<'_>, lists: &[CommunityList]) -> Option<u32>
    ensures { result ≡ least_line (flat_map (several_in (has_name names.now)) lists.now) }
{
    let mut least = None;
    for list in lists {
        least = lesser_line(least, several_in_list(names, list));
    }
    least
}

fn wide_deletions_of(alloc: Global, router: &Router) -> Result<Option<u32>, NoMemory>
    ensures { IfOk result (λ line. line ≡ least_line (wide_deletions_of router.now)) }
{
    let names = deleted_names(alloc, router.route_maps.as_slice())?;
    Ok(several_in_lists(&names, router.community_lists.as_slice()))
}

/// The least line with several communities in a list by which some entry of its router deletes.
pub(crate) fn delete_list_form(alloc: Global, routers: &[Router]) -> Result<Option<u32>, NoMemory>
    ensures { IfOk result (λ line. line ≡ least_line (flat_map wide_deletions_of routers.now)) }
{
    let mut least = None;
    for router in routers {
        least = lesser_line(least, wide_deletions_of(alloc, router)?);
    }
    Ok(least)
}
