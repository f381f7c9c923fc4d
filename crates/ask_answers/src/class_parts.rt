//! What a request writes of one class.

ghost use Rattle.std.specs.Prelude.{◌≡◌, ◌||◌, IfOk, Contains, unwrap_or};
ghost use Rattle.std.specs.List.{list_any};
ghost use Rattle.cfg_ast.specs.declared.classes.DestClass.{DestClass as SomeClass};
ghost use Rattle.cfg_ast.specs.meaning.Classes.{classes_of};
ghost use Rattle.driver.specs.Steps.{IsSharedOf};
ghost use Rattle.srp_core.specs.Without.{marked_down, IsWithout};
ghost use Rattle.srp_without.specs.Accepting.{Serves};
ghost use Rattle.solution_answers.specs.Writing.{Writes};
ghost use Rattle.ask_classes.specs.Tasks.{IsClassPart};
ghost use Rattle.ask_answers.specs.Atlases.{IsKnownFor};
ghost use Rattle.ask_answers.specs.Plans.{IsRequestPlan};

use crate::plan::Plan;
use crate::problems::KnownProblem;
use ask_classes::{Problems, Scene, put_class};
use ask_words::Request;
use base_kit::NoMemory;
use cfg_check::Checked;
use driver::Shared;
use given_laws::given_is_well_formed;
use net_topology::laws::few_links;
use srp_core::Srp;
use srp_without::without;
use std::alloc::Global;

// Whether some mark is set.
fn has_mark(marks: &[bool]) -> bool
    ensures { result ≡ list_any (λ mark. mark) marks.now }
{
    marks.iter().any(|mark| *mark)
}

// Whether some router or link is down.
fn is_any_down(routers: &[bool], links: &[bool]) -> bool
    ensures { result ≡ (list_any (λ mark. mark) routers.now || list_any (λ mark. mark) links.now) }
{
    has_mark(routers) || has_mark(links)
}

// What is left of a problem where something is down. Where nothing is, the whole is left, and nothing is made.
fn left_of(
    alloc: Global,
    known: &KnownProblem,
    routers: &[bool],
    links: &[bool],
) -> Result<Option<Srp>, NoMemory>
    requires { Serves known.now.whole known.now.failures }
    ensures { IfOk result (λ left. IsWithout known.now.whole (marked_down routers.now links.now) (unwrap_or left known.now.whole)) }
{
    let whole = &known.whole;
    // This brings into view that the problem fits.
    let _counted = whole.count();
    if !is_any_down(routers, links) {
        return Ok(None);
    }
    let left = without(alloc, whole, &known.failures, routers, links)?;
    Ok(Some(left))
}

// The problem that was made, else the whole.
fn made_or<'a>(made: &'a Option<Srp>, whole: &'a Srp) -> &'a Srp
    ensures { result.now ≡ unwrap_or made.now whole.now }
{
    match made {
        Some(left) => left,
        None => whole,
    }
}

/// Appends what a request writes of the class of this problem. Whether every answer is `yes`.
///
/// # Errors
/// Out of memory.
pub(crate) fn put_class_part(
    alloc: Global,
    bytes: &mut Vec<u8>,
    checked: &Checked,
    shared: &Shared,
    request: &Request,
    plan: &Plan,
    number: usize,
    known: &KnownProblem,
) -> Result<bool, NoMemory>
    requires shared { IsSharedOf checked.now.network shared.now }
    requires plan { IsRequestPlan plan.now.manner.shows checked.now.network request.now plan.now }
    requires known { (class : SomeClass) × Contains (classes_of checked.now.network) class × IsKnownFor checked.now.network class known.now }
    ensures { IfOk result (λ all. (class : SomeClass) → IsKnownFor checked.now.network class known.now →
        Writes (IsClassPart plan.now.manner checked.now.network request.now (number, class)) bytes.old.items bytes.new.items all) }
{
    given_is_well_formed();
    few_links();
    let network = checked.network();
    let links = shared.links.as_slice();
    let whole = &known.whole;
    let failures = &known.failures;
    let routers_down = plan.routers_down.as_slice();
    let links_down = plan.links_down.as_slice();
    let made = left_of(alloc, known, routers_down, links_down)?;
    let left = made_or(&made, whole);
    let scene = Scene {
        network,
        links,
        routers_down,
        links_down,
    };
    let problems = Problems {
        whole,
        left,
        failures,
        number,
    };
    let all = put_class(
        alloc,
        bytes,
        plan.manner,
        &scene,
        &problems,
        &request.task,
        &plan.named,
    )?;
    Ok(all)
}
