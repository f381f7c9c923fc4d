//! The command `certify`.

ghost use Rattle.std.specs.Prelude.{Contains, IfOk};
ghost use Rattle.cfg_ast.specs.meaning.Classes.{classes_of};
ghost use Rattle.srp_build.specs.Built.{IsBuiltFor};
ghost use Rattle.answer_certificates.specs.Certified.{IsCertifyOf};
ghost use Rattle.answer_kit.specs.Outcome.{done};
ghost use Rattle.answer_kit.specs.Replies.{Answers};

use answer_kit::Reply;
use base_kit::NoMemory;
use cfg_ast::DestClass;
use cfg_check::Checked;
use cut_certificate::{certify, print_certificate};
use driver::problem_of_class;
use srp_core::Srp;
use std::alloc::Global;

// The text of a certificate of the problem.
fn text_of(
    alloc: Global,
    checked: &Checked,
    class: &DestClass,
    problem: &Srp,
) -> Result<Vec<u8>, NoMemory>
    requires { IsBuiltFor checked.now.network class.now problem.now }
    ensures { IfOk result (λ bytes. IsCertifyOf checked.now.network class.now (done bytes.items)) }
{
    let _known = problem.count();
    let graph = problem.graph()?;
    let certificate = certify(alloc, &graph)?;
    let text = print_certificate(alloc, &graph, problem.names(), &certificate)?;
    Ok(text)
}

/// Writes a certificate of the coarsest partition of a class, whose problem this is.
pub fn answer_of(alloc: Global, checked: &Checked, class: &DestClass, problem: &Srp) -> Reply
    requires { IsBuiltFor checked.now.network class.now problem.now }
    ensures { Answers result (IsCertifyOf checked.now.network class.now) ⊥ ⊥ }
{
    match text_of(alloc, checked, class, problem) {
        Ok(bytes) => Reply::Output(bytes),
        Err(NoMemory) => Reply::NoMemory,
    }
}

/// Writes a certificate of the coarsest partition of a class.
pub fn answer(alloc: Global, checked: &Checked, class: &DestClass) -> Reply
    requires { Contains (classes_of checked.now.network) class.now }
    ensures { Answers result (IsCertifyOf checked.now.network class.now) ⊥ ⊥ }
{
    match problem_of_class(alloc, checked, class) {
        Ok(problem) => answer_of(alloc, checked, class, &problem),
        Err(NoMemory) => Reply::NoMemory,
    }
}
