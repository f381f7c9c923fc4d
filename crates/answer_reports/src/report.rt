//! The commands `report` and `json`.

ghost use Rattle.std.specs.Prelude.{◌≡◌, IfOk, Contains};
ghost use Rattle.cfg_ast.specs.meaning.Classes.{classes_of};
ghost use Rattle.group_report.specs.Reports.{HasReport};
ghost use Rattle.answer_kit.specs.Outcome.{done};
ghost use Rattle.answer_kit.specs.Replies.{Answers};
ghost use Rattle.answer_reports.specs.NetworkParts.{IsNetworkPart};
ghost use Rattle.answer_reports.specs.ReportAnswers.{text_in, IsReported};
ghost use Rattle.driver.specs.Steps.{IsSharedOf};
ghost use Rattle.srp_build.specs.Built.{IsBuiltFor};

use answer_kit::Reply;
use base_kit::{List, NoMemory};
use cfg_ast::{DestClass, Unmatched};
use cfg_check::Checked;
use driver::{Grouping, Shared, grouped};
use group_report::{json, report};
use net_topology::unmatched;
use srp_core::Srp;
use std::alloc::Global;

/// How a report is written: as lines of text, or as one line of JSON.
#[derive(Clone, Copy, Debug, PartialEq, Eq)]
pub enum Form {
    Lines,
    Json,
}

// The report on a grouping.
fn written(
    alloc: Global,
    form: Form,
    number: u32,
    before: u32,
    grouping: &Grouping,
    unmatched: &List<Unmatched>,
) -> Result<Vec<u8>, NoMemory>
    ensures { IfOk result (λ bytes. HasReport (λ r. bytes.items ≡ text_in form r) number grouping.now.problem before grouping.now.groups grouping.now.quotient.links unmatched.now) }
{
    let Grouping {
        problem,
        groups,
        quotient,
    } = grouping;
    match form {
        Form::Lines => report(alloc, number, problem, before, groups, quotient, unmatched),
        Form::Json => json(alloc, number, problem, before, groups, quotient, unmatched),
    }
}

/// The part of a report that is the same for all classes of a network: how many links there are, and the
/// neighbours of no session.
#[derive(Drop)]
pub struct NetworkPart {
    pub links: u32,
    pub unmatched: List<Unmatched>,
}

impl NetworkPart {
    /// The part of the reports on the classes of this network, from what the classes share.
    ///
    /// # Errors
    /// Out of memory.
    pub fn of(alloc: Global, checked: &Checked, shared: &Shared) -> Result<Self, NoMemory>
        requires { IsSharedOf checked.now.network shared.now }
        ensures { IfOk result (IsNetworkPart checked.now.network) }
    {
        let links = shared.link_count(checked);
        let unmatched = unmatched(alloc, checked)?;
        Ok(NetworkPart { links, unmatched })
    }
}

// The report on the groups of a class, whose problem this is.
fn text_of_class(
    alloc: Global,
    form: Form,
    checked: &Checked,
    part: &NetworkPart,
    number: u32,
    class: &DestClass,
    problem: Srp,
) -> Result<Vec<u8>, NoMemory>
    requires part { IsNetworkPart checked.now.network part.now }
    requires built { IsBuiltFor checked.now.network class.now problem }
    ensures { IfOk result (λ bytes. IsReported (text_in form) checked.now.network number class.now (done bytes.items)) }
{
    let grouping = grouped(alloc, problem)?;
    let bytes = written(alloc, form, number, part.links, &grouping, &part.unmatched)?;
    Ok(bytes)
}

/// The report on the groups of a class, which has this number and this problem.
pub fn answer_of(
    alloc: Global,
    form: Form,
    checked: &Checked,
    part: &NetworkPart,
    number: u32,
    class: &DestClass,
    problem: Srp,
) -> Reply
    requires part { IsNetworkPart checked.now.network part.now }
    requires built { IsBuiltFor checked.now.network class.now problem }
    ensures { Answers result (IsReported (text_in form) checked.now.network number class.now) ⊥ ⊥ }
{
    match text_of_class(alloc, form, checked, part, number, class, problem) {
        Ok(bytes) => Reply::Output(bytes),
        Err(NoMemory) => Reply::NoMemory,
    }
}

// The problem of a class, and the part of its report that is the same for all classes.
fn problem_and_part(
    alloc: Global,
    checked: &Checked,
    class: &DestClass,
) -> Result<(Srp, NetworkPart), NoMemory>
    requires { Contains (classes_of checked.now.network) class.now }
    ensures { IfOk result (λ made. IsBuiltFor checked.now.network class.now made.0 × IsNetworkPart checked.now.network made.1) }
{
    let mut shared = Shared::of(alloc, checked)?;
    let part = NetworkPart::of(alloc, checked, &shared)?;
    let problem = shared.problem(alloc, checked, class)?;
    Ok((problem, part))
}

/// The report on the groups of a class, which has this number.
pub fn answer(alloc: Global, form: Form, checked: &Checked, number: u32, class: &DestClass) -> Reply
    requires { Contains (classes_of checked.now.network) class.now }
    ensures { Answers result (IsReported (text_in form) checked.now.network number class.now) ⊥ ⊥ }
{
    match problem_and_part(alloc, checked, class) {
        Ok((problem, part)) => answer_of(alloc, form, checked, &part, number, class, problem),
        Err(NoMemory) => Reply::NoMemory,
    }
}
