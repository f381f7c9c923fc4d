//! Calls that print networks and reports.

ghost use Rattle.std.specs.Prelude.{◌≡◌, IfOk};
ghost use Rattle.cfg_ast.specs.printing.Printed.{printed};
ghost use Rattle.cfg_print.specs.Prints.{Prints};
ghost use Rattle.fat_gen.specs.FatTrees.{IsFatTree};
ghost use Rattle.group_report.specs.JsonText.{json_text};
ghost use Rattle.group_report.specs.Reports.{HasReport, count_line, report_text};

use abstract_net::Quotient;
use base_kit::{List, NoMemory};
use cfg_ast::{Network, Notes, Unmatched};
use cfg_print::{PrintRefusal, text};
use fat_gen::{FatRefusal, fat_tree};
use group_report::{count_line, json, report};
use refine_partition::Partition;
use srp_core::Srp;
use std::alloc::Global;

/// A network as a text.
pub fn text_of_network(
    alloc: Global,
    network: &Network,
    notes: &Notes,
) -> Result<Vec<u8>, PrintRefusal>
    ensures { Prints (λ bytes. bytes.items) result (printed network.now notes.now) }
{
    text(alloc, network, notes)
}

/// The groups of a class, as lines.
pub fn lines_of_groups(
    alloc: Global,
    class_number: u32,
    srp: &Srp,
    links_before: u32,
    p: &Partition,
    q: &Quotient,
    unmatched: &List<Unmatched>,
) -> Result<Vec<u8>, NoMemory>
    ensures { IfOk result (λ bytes. HasReport (λ r. bytes.items ≡ report_text r) class_number srp.now links_before p.now q.now.links unmatched.now) }
{
    report(alloc, class_number, srp, links_before, p, q, unmatched)
}

/// The groups of a class, as a line of JSON.
pub fn json_of_groups(
    alloc: Global,
    class_number: u32,
    srp: &Srp,
    links_before: u32,
    p: &Partition,
    q: &Quotient,
    unmatched: &List<Unmatched>,
) -> Result<Vec<u8>, NoMemory>
    ensures { IfOk result (λ bytes. HasReport (λ r. bytes.items ≡ json_text r) class_number srp.now links_before p.now q.now.links unmatched.now) }
{
    json(alloc, class_number, srp, links_before, p, q, unmatched)
}

/// The line of the counts of a class.
pub fn line_of_counts(
    alloc: Global,
    class_number: u32,
    routers: u32,
    links_before: u32,
    groups: u32,
    links_after: u32,
) -> Result<Vec<u8>, NoMemory>
    ensures { IfOk result (λ bytes. bytes.items ≡ count_line class_number routers links_before groups links_after) }
{
    count_line(
        alloc,
        class_number,
        routers,
        links_before,
        groups,
        links_after,
    )
}

/// The text of a fat tree.
pub fn text_of_fat_tree(alloc: Global, k: u32) -> Result<Vec<u8>, FatRefusal>
    ensures { IsFatTree (λ bytes. bytes.items) result k }
{
    fat_tree(alloc, k)
}
