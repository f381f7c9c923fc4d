//! The lines of the groups.

ghost use Rattle.std.specs.Prelude.{◌≡◌, ◌++◌, IfOk, OnOk, flat_map, string_bytes};
ghost use Rattle.base_kit.specs.Partition.{IsNumbered};
ghost use Rattle.group_report.specs.GroupLines.{mark_of, group_mark, member_word, group_line, line_of_group, group_lines, HasGroupLines};

use crate::facts::{is_lone, name_at, originates};
use base_kit::NoMemory;
use refine_partition::Partition;
use srp_core::Srp;
use std::alloc::{AllocError, Global};
use std::fmt::Write;

fn mark_of(problem: &Srp, router: u32) -> &'static str
    ensures { result.now ≡ mark_of problem.now router }
{
    if originates(problem, router) {
        " origin"
    } else if is_lone(problem, router) {
        " lone"
    } else {
        ""
    }
}

fn group_mark(problem: &Srp, members: &[u32]) -> &'static str
    ensures { result.now ≡ group_mark problem.now members.now }
{
    match members {
        [] => "",
        [router, ..] => mark_of(problem, *router),
    }
}

fn put_members(text: &mut String, problem: &Srp, members: &[u32]) -> Result<(), AllocError>
    ensures { OnOk result (string_bytes text.new ≡ string_bytes text.old ++ flat_map (member_word problem.now) members.now) }
{
    for router in members {
        text.push_str(" ")?;
        text.push_str(name_at(problem, *router))?;
    }
    Ok(())
}

fn put_group(
    text: &mut String,
    problem: &Srp,
    number: u32,
    members: &[u32],
) -> Result<(), AllocError>
    ensures { OnOk result (string_bytes text.new ≡ string_bytes text.old ++ group_line problem.now number members.now) }
{
    let mark = group_mark(problem, members);
    write!(text, "group {number}{mark}:")?;
    put_members(text, problem, members)?;
    text.push_str("\n")
}

/// Appends the lines of so many groups.
pub(crate) fn put_group_lines(
    text: &mut String,
    problem: &Srp,
    partition: &Partition,
    count: u32,
) -> Result<(), AllocError>
    requires { IsNumbered partition.now count }
    ensures { OnOk result (string_bytes text.new ≡ string_bytes text.old ++ group_lines problem.now partition.now count) }
{
    for group in 0..count {
        let members = partition.members(group);
        put_group(text, problem, group + 1, members)?;
    }
    Ok(())
}

/// The line of each group of a partition, in order.
///
/// # Errors
/// Out of memory.
pub fn group_lines(alloc: Global, problem: &Srp, partition: &Partition) -> Result<Vec<u8>, NoMemory>
    ensures { IfOk result (λ bytes. HasGroupLines problem.now partition.now bytes.items) }
{
    let mut text = String::new(alloc);
    put_group_lines(&mut text, problem, partition, partition.groups())?;
    Ok(text.into_bytes())
}
