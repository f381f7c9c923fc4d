//! The command `summary`.

ghost use Rattle.std.specs.Prelude.{◌≡◌, IfOk, OnOk, length, string_bytes};
ghost use Rattle.cfg_ast.specs.declared.classes.DestClass.{DestClass};
ghost use Rattle.cfg_ast.specs.declared.network.Network.{Network};
ghost use Rattle.cfg_ast.specs.meaning.Classes.{classes_of};
ghost use Rattle.cfg_ast.specs.meaning.Topology.{links_of};
ghost use Rattle.driver.specs.Steps.{AreExportsOf, IsClassProblem};
ghost use Rattle.answer_kit.specs.Replies.{Answers};
ghost use Rattle.answer_reports.specs.Summaries.{AreSummaryLines, HasLineOf, IsSummaryAnswer};

use answer_kit::Reply;
use base_kit::NoMemory;
use cfg_ast::DestClass;
use cfg_check::Checked;
use dest_classes::classes;
use driver::{ClassProblem, Shared, coarsest_by_exports};
use group_report::{link_count, put_count_line};
use std::alloc::Global;

// Appends the line of the counts of the class of this problem.
fn put_line(
    alloc: Global,
    text: &mut String,
    made: &ClassProblem,
    before: u32,
    number: usize,
) -> Result<(), NoMemory>
    requires { AreExportsOf made.now.problem made.now.exports }
    ensures { OnOk result ((network : Network) (class : DestClass) → before ≡ length (links_of network) → IsClassProblem network class made.now → HasLineOf network number class (string_bytes text.old) (string_bytes text.new)) }
{
    let partition = coarsest_by_exports(alloc, &made.problem, &made.exports)?;
    let routers = made.problem.count();
    let groups = partition.groups();
    let after = link_count(alloc, &made.problem, &partition, groups)?;
    put_count_line(text, number, routers, before, groups, after)?;
    Ok(())
}

// The line of the counts of each class of a network. In OSPF the problem of each class but the first is
// made from that of the class before it.
fn lines_of(alloc: Global, checked: &Checked, classes: &[DestClass]) -> Result<Vec<u8>, NoMemory>
    requires { classes.now ≡ classes_of checked.now.network }
    ensures { IfOk result (λ bytes. AreSummaryLines checked.now.network 1 classes.now bytes.items) }
{
    let mut shared = Shared::of(alloc, checked)?;
    let before = shared.link_count(checked);
    let mut text = String::new(alloc);
    let mut last = None;
    for i in 0..classes.len() {
        let made = shared.problem_after(alloc, checked, &classes[i], last)?;
        put_line(alloc, &mut text, &made, before, i + 1)?;
        last = Some(made);
    }
    Ok(text.into_bytes())
}

/// The line of the counts of each class. What the classes share is made once.
pub fn answer(alloc: Global, checked: &Checked) -> Reply
    ensures { Answers result (IsSummaryAnswer checked.now.network) ⊥ ⊥ }
{
    let Ok(classes) = classes(alloc, checked) else {
        return Reply::NoMemory;
    };
    match lines_of(alloc, checked, classes.as_slice()) {
        Ok(bytes) => Reply::Output(bytes),
        Err(NoMemory) => Reply::NoMemory,
    }
}
