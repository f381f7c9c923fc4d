//! The values of that JSON.

ghost use Rattle.std.specs.Prelude.{◌≡◌, IfOk, map, string_bytes};
ghost use Rattle.base_kit.specs.Partition.{IsNumbered};
ghost use Rattle.cfg_ast.specs.printing.Printed.{address_text};
ghost use Rattle.serde_json.specs.View.{view};
ghost use Rattle.group_report.specs.JsonData.{name_data, group_data, groups_data, counts_data, unmatched_data};
ghost use Rattle.group_report.specs.JsonText.{member_that_names};

use crate::facts::{is_lone, name_at, originates};
use cfg_ast::Unmatched;
use printed_words::put_address;
use refine_partition::Partition;
use serde_json::{Value, json};
use srp_core::Srp;
use std::alloc::{AllocError, Global};

fn first_member(members: &[u32]) -> u32
    ensures { result ≡ member_that_names members.now }
{
    match members {
        [] => 0,
        [router, ..] => *router,
    }
}

fn names(alloc: Global, problem: &Srp, members: &[u32]) -> Result<Vec<Value>, AllocError>
    ensures { IfOk result (λ names. map view names.items ≡ map (name_data problem.now) members.now) }
{
    let mut names = Vec::new(alloc);
    for router in members {
        let name = Value::try_from_str(alloc, name_at(problem, *router))?;
        names.push(name)?;
    }
    Ok(names)
}

fn group(alloc: Global, problem: &Srp, members: &[u32]) -> Result<Value, AllocError>
    ensures { IfOk result (λ value. view value ≡ group_data problem.now members.now) }
{
    let first = first_member(members);
    let lone = is_lone(problem, first);
    let members = names(alloc, problem, members)?;
    let name = name_at(problem, first);
    let origin = originates(problem, first);
    json!(in alloc; {"lone": lone, "members": members, "name": name, "origin": origin})
}

/// The objects of so many groups.
pub(crate) fn groups(
    alloc: Global,
    problem: &Srp,
    partition: &Partition,
    count: u32,
) -> Result<Vec<Value>, AllocError>
    requires { IsNumbered partition.now count }
    ensures { IfOk result (λ groups. map view groups.items ≡ groups_data problem.now partition.now count) }
{
    let mut groups = Vec::new(alloc);
    for number in 0..count {
        let value = group(alloc, problem, partition.members(number))?;
        groups.push(value)?;
    }
    Ok(groups)
}

/// The counts of routers or of links: after compression, and before it.
pub(crate) fn counts(alloc: Global, after: usize, before: u32) -> Result<Value, AllocError>
    ensures { IfOk result (λ value. view value ≡ counts_data after before) }
{
    json!(in alloc; {"after": after, "before": before})
}

fn address_text(alloc: Global, addr: u32) -> Result<String, AllocError>
    ensures { IfOk result (λ text. string_bytes text ≡ address_text addr) }
{
    let mut text = String::new(alloc);
    put_address(&mut text, addr)?;
    Ok(text)
}

fn unmatched_value(alloc: Global, problem: &Srp, neighbor: Unmatched) -> Result<Value, AllocError>
    ensures { IfOk result (λ value. view value ≡ unmatched_data problem.now neighbor) }
{
    let address = address_text(alloc, neighbor.addr)?;
    let router = name_at(problem, neighbor.router);
    json!(in alloc; {"address": address, "router": router})
}

/// The objects of the neighbours that are part of no session.
pub(crate) fn unmatched_values(
    alloc: Global,
    problem: &Srp,
    unmatched: &[Unmatched],
) -> Result<Vec<Value>, AllocError>
    ensures { IfOk result (λ values. map view values.items ≡ map (unmatched_data problem.now) unmatched.now) }
{
    let mut values = Vec::new(alloc);
    for neighbor in unmatched {
        let value = unmatched_value(alloc, problem, *neighbor)?;
        values.push(value)?;
    }
    Ok(values)
}
