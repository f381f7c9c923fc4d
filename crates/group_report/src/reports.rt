//! The report as lines of text.

ghost use Rattle.std.specs.Prelude.{◌≡◌, ◌++◌, IfOk, OnOk, flat_map, string_bytes};
ghost use Rattle.base_kit.specs.Partition.{IsNumbered};
ghost use Rattle.group_report.specs.Reports.{unmatched_line, report_text, HasReport};

use crate::counts::put_count_line;
use crate::facts::name_at;
use crate::groups::put_group_lines;
use abstract_net::Quotient;
use base_kit::{List, NoMemory};
use cfg_ast::Unmatched;
use printed_words::put_address;
use refine_partition::Partition;
use srp_core::Srp;
use std::alloc::{AllocError, Global};
use std::fmt::Write;

fn put_unmatched(text: &mut String, problem: &Srp, neighbor: Unmatched) -> Result<(), AllocError>
    ensures { OnOk result (string_bytes text.new ≡ string_bytes text.old ++ unmatched_line problem.now neighbor) }
{
    let name = name_at(problem, neighbor.router);
    write!(text, "unmatched {name} ")?;
    put_address(text, neighbor.addr)?;
    text.push_str("\n")
}

fn put_all_unmatched(
    text: &mut String,
    problem: &Srp,
    unmatched: &[Unmatched],
) -> Result<(), AllocError>
    ensures { OnOk result (string_bytes text.new ≡ string_bytes text.old ++ flat_map (unmatched_line problem.now) unmatched.now) }
{
    for neighbor in unmatched {
        put_unmatched(text, problem, *neighbor)?;
    }
    Ok(())
}

// Appends a report on so many groups.
fn put_report(
    text: &mut String,
    class_number: u32,
    srp: &Srp,
    links_before: u32,
    p: &Partition,
    count: u32,
    q: &Quotient,
    unmatched: &[Unmatched],
) -> Result<(), AllocError>
    requires { IsNumbered p.now count }
    ensures { OnOk result (string_bytes text.new ≡ string_bytes text.old ++ report_text (record { class_number = class_number; problem = srp.now; links_before = links_before; groups = p.now; group_count = count; links = q.now.links; unmatched = unmatched.now })) }
{
    let number = class_number as usize;
    let after = q.links.len();
    put_count_line(text, number, srp.count(), links_before, count, after)?;
    put_group_lines(text, srp, p, count)?;
    put_all_unmatched(text, srp, unmatched)
}

/// The report on the groups of a class as lines of text: the line of the counts, the line of each
/// group, and a line for each neighbour that is part of no session.
///
/// # Errors
/// Out of memory.
pub fn report(
    alloc: Global,
    class_number: u32,
    srp: &Srp,
    links_before: u32,
    p: &Partition,
    q: &Quotient,
    unmatched: &List<Unmatched>,
) -> Result<Vec<u8>, NoMemory>
    ensures { IfOk result (λ bytes. HasReport (λ r. bytes.items ≡ report_text r) class_number srp.now links_before p.now q.now.links unmatched.now) }
{
    let count = p.groups();
    let mut text = String::new(alloc);
    let unmatched = unmatched.as_slice();
    put_report(
        &mut text,
        class_number,
        srp,
        links_before,
        p,
        count,
        q,
        unmatched,
    )?;
    Ok(text.into_bytes())
}
