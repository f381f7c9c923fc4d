//! What is reported of labels that are not stable.

ghost use Rattle.std.specs.Prelude.{◌≡◌, IfOk};
ghost use Rattle.answer_kit.specs.Outcome.{not_stable};
ghost use Rattle.answer_kit.specs.Replies.{Answers, Only};
ghost use Rattle.answer_solutions.specs.Checks.{name_of_break, break_reason};

use answer_kit::{Reply, router_name};
use srp_core::Srp;
use std::alloc::{AllocError, Global};

fn name_of_break(why: u8) -> &'static str
    ensures { result.now ≡ name_of_break why }
{
    if why == 1 {
        "wrong-origin"
    } else if why == 2 {
        "not-a-candidate"
    } else if why == 3 {
        "better-candidate"
    } else {
        "none-with-candidate"
    }
}

fn break_reason(alloc: Global, problem: &Srp, router: u32, why: u8) -> Result<Vec<u8>, AllocError>
    ensures { IfOk result (λ bytes. bytes.items ≡ break_reason problem.now router why) }
{
    let name = router_name(problem, router);
    let reason = name_of_break(why);
    let text = format!(in alloc; "{name} {reason}")?;
    Ok(text.into_bytes())
}

/// Names the first router that breaks the stability of labels, and why.
pub fn broken(alloc: Global, problem: &Srp, router: u32, why: u8) -> Reply
    ensures { Answers result (Only (not_stable (break_reason problem.now router why))) ⊥ ⊥ }
{
    match break_reason(alloc, problem, router, why) {
        Ok(reason) => Reply::NotStable(reason),
        Err(_) => Reply::NoMemory,
    }
}
