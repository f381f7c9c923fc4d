//! The command `verify`.

ghost use Rattle.std.specs.Prelude.{◌≡◌, ◌≤◌, ℕ, List, codes, Contains, length};
ghost use Rattle.cfg_ast.specs.meaning.Classes.{classes_of};
ghost use Rattle.io_kit.specs.Ends.{Rose};
ghost use Rattle.srp_core.specs.Problem.{count};
ghost use Rattle.srp_core.specs.Starts.{IsGraphOf};
ghost use Rattle.answer_certificates.specs.Verified.{certificate_limit, certificate_reason, long_certificate, name_of_cut_kind, IsVerdictOn, IsVerifyOf};
ghost use Rattle.answer_kit.specs.Outcome.{done, refused};
ghost use Rattle.answer_kit.specs.Replies.{Answers, Only};
ghost use Rattle.answer_kit.specs.SecondFiles.{IsOfSecond};

use answer_kit::{Reply, read_second, refuse};
use base_kit::{ActGraph, NoMemory};
use cfg_ast::DestClass;
use cfg_check::Checked;
use cut_certificate::{CutKind, CutRefusal, verify};
use driver::problem_of_class;
use io_kit::Source;
use srp_core::Srp;
use std::alloc::Global;

// A certificate has at most this many bytes.
const CERTIFICATE_LIMIT: usize = 16_777_216;

fn name_of_kind(kind: CutKind) -> &'static str
    ensures { result.now ≡ name_of_cut_kind kind }
{
    match kind {
        CutKind::BadForm => "BadForm",
        CutKind::UnknownRouter => "UnknownRouter",
        CutKind::NoEdge => "NoEdge",
        CutKind::NoBlock => "NoBlock",
        CutKind::SameBlock => "SameBlock",
        CutKind::NothingSplit => "NothingSplit",
        CutKind::WrongGroups => "WrongGroups",
        CutKind::NotAdmissible => "NotAdmissible",
        CutKind::NoEnd => "NoEnd",
    }
}

// The refusal of a certificate, by its line and kind.
fn certificate_refusal(alloc: Global, line: u32, kind: CutKind) -> Reply
    ensures { Answers result (Only (refused (certificate_reason line kind))) ⊥ ⊥ }
{
    let name = name_of_kind(kind);
    refuse(format!(in alloc; "certificate line {line}: {name}"))
}

fn yes(alloc: Global) -> Reply
    ensures { Answers result (Only (done (codes "yes\n"))) ⊥ ⊥ }
{
    match Vec::from_slice(alloc, b"yes\n") {
        Ok(bytes) => Reply::Output(bytes),
        Err(_) => Reply::NoMemory,
    }
}

// Judges a text that is to spell a certificate of the graph.
fn judged(alloc: Global, problem: &Srp, graph: &ActGraph, text: &[u8]) -> Reply
    requires short { length text.now ≤ certificate_limit }
    requires of_problem { IsGraphOf problem.now graph.now }
    ensures { Answers result (IsVerdictOn problem.now graph.now text.now) ⊥ ⊥ }
{
    let _known = problem.count();
    match verify(alloc, graph, problem.names(), text) {
        Ok(_) => yes(alloc),
        Err(CutRefusal::At { line, why }) => certificate_refusal(alloc, line, why),
        Err(CutRefusal::Memory) => Reply::NoMemory,
    }
}

// Judges the certificate that the second file gives.
fn answer_of_graph<S: Source>(
    alloc: Global,
    problem: &Srp,
    graph: &ActGraph,
    second: &str,
    files: &mut S,
) -> Reply
    requires { IsGraphOf problem.now graph.now }
    ensures answers { Answers result (IsOfSecond certificate_limit long_certificate (S.contents files.old second.now) (IsVerdictOn problem.now graph.now)) ⊥ (Rose (S.faults files.old second.now) (S.faults files.new second.now)) }
    ensures contents { S.contents files.new ≡ S.contents files.old }
    ensures later { (n : List ℕ) → S.faults files.old n ≤ S.faults files.new n }
{
    match read_second(
        alloc,
        second,
        CERTIFICATE_LIMIT,
        "certificate FileTooLong",
        files,
    ) {
        Ok(text) => judged(alloc, problem, graph, &text),
        Err(reply) => reply,
    }
}

/// Judges the certificate in the second file, for a class.
pub fn answer<S: Source>(
    alloc: Global,
    checked: &Checked,
    class: &DestClass,
    second: &str,
    files: &mut S,
) -> Reply
    requires { Contains (classes_of checked.now.network) class.now }
    ensures answers { Answers result (IsVerifyOf checked.now.network (S.contents files.old second.now) class.now) ⊥ (Rose (S.faults files.old second.now) (S.faults files.new second.now)) }
    ensures contents { S.contents files.new ≡ S.contents files.old }
    ensures later { (n : List ℕ) → S.faults files.old n ≤ S.faults files.new n }
{
    let Ok(problem) = problem_of_class(alloc, checked, class) else {
        return Reply::NoMemory;
    };
    match problem.graph() {
        Ok(graph) => answer_of_graph(alloc, &problem, &graph, second, files),
        Err(NoMemory) => Reply::NoMemory,
    }
}
