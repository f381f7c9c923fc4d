//! The report as one line of JSON.

ghost use Rattle.std.specs.Prelude.{◌≡◌, ◌++◌, IfOk, codes, false};
ghost use Rattle.serde_json.specs.Written.{compact_text, has_float};
ghost use Rattle.serde_json.specs.View.{view};
ghost use Rattle.group_report.specs.JsonData.{report_data};
ghost use Rattle.group_report.specs.JsonText.{json_text};
ghost use Rattle.group_report.specs.Reports.{HasReport};

use crate::json_values::{counts, groups, unmatched_values};
use abstract_net::Quotient;
use base_kit::{List, NoMemory};
use cfg_ast::Unmatched;
use refine_partition::Partition;
use serde_json::{Value, json};
use srp_core::Srp;
use std::alloc::{AllocError, Global};

fn report_value(
    alloc: Global,
    class_number: u32,
    srp: &Srp,
    links_before: u32,
    p: &Partition,
    q: &Quotient,
    unmatched: &List<Unmatched>,
) -> Result<Value, AllocError>
    ensures { IfOk result (λ value. HasReport (λ r. view value ≡ report_data r) class_number srp.now links_before p.now q.now.links unmatched.now) }
{
    let count = p.groups();
    let groups = groups(alloc, srp, p, count)?;
    let links = counts(alloc, q.links.len(), links_before)?;
    let routers = counts(alloc, count as usize, srp.count())?;
    let unmatched = unmatched_values(alloc, srp, unmatched.as_slice())?;
    json!(in alloc; {
        "class": class_number,
        "groups": groups,
        "links": links,
        "routers": routers,
        "unmatched": unmatched
    })
}

// A value without floats as one line.
fn line_of(alloc: Global, value: &Value) -> Result<Vec<u8>, AllocError>
    ensures { IfOk result (λ bytes. has_float (view value.now) ≡ false → bytes.items ≡ compact_text (view value.now) ++ codes "\n") }
{
    let mut text = value.to_string(alloc)?;
    text.push_str("\n")?;
    Ok(text.into_bytes())
}

/// The report on the groups of a class as one line of JSON, whose keys ascend.
///
/// # Errors
/// Out of memory.
pub fn json(
    alloc: Global,
    class_number: u32,
    srp: &Srp,
    links_before: u32,
    p: &Partition,
    q: &Quotient,
    unmatched: &List<Unmatched>,
) -> Result<Vec<u8>, NoMemory>
    ensures { IfOk result (λ bytes. HasReport (λ r. bytes.items ≡ json_text r) class_number srp.now links_before p.now q.now.links unmatched.now) }
{
    let value = report_value(alloc, class_number, srp, links_before, p, q, unmatched)?;
    let bytes = line_of(alloc, &value)?;
    Ok(bytes)
}
