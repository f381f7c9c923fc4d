//! The network of a file, read and checked once, or what is found where there is none: the first step of a
//! program that asks one network many things.
#![tactic(auto)]

ghost use Rattle.std.specs.Prelude.{◌≡◌, ◌≤◌, ℕ, List, IfOk, IfErr, IfSome, Result, length};
ghost use Rattle.answer_kit.specs.Networks.{AllowsNoNetwork};
ghost use Rattle.answer_kit.specs.Networks as network;
ghost use Rattle.answer_kit.specs.Outcome as outcome;
ghost use Rattle.answer_kit.specs.Replies.{Answers, Only};
ghost use Rattle.cfg_ast.specs.declared.network.Network.{Network};
ghost use Rattle.cfg_ast.specs.declared.refusal.ReadRefusal.{ReadRefusal};
ghost use Rattle.cfg_ast.specs.text.Reading.{reading_of};
ghost use Rattle.endings.specs.Findings.{Finds};
ghost use Rattle.endings.specs.Telling.{refused};
ghost use Rattle.io_kit.specs.Ends.{Rose};
ghost use Rattle.network_files.specs.NetworkFiles.{AllowsNothing, HoldsNetwork, IsOfFile, IsOfReading};

use answer_kit::Reply;
use answer_texts::{TEXT_LIMIT, long_text, network_in};
use cfg_check::Checked;
use endings::Finding;
use io_kit::{InFault, Source, read_all};
use std::alloc::Global;

// What is found where a text gives no network: it is refused, or memory ran out.
fn unread(reply: Reply) -> Finding
    ensures text { (reading : Result Network ReadRefusal) → Answers reply (network.IsOfReading AllowsNoNetwork reading) ⊥ ⊥ → Finds result (IsOfReading AllowsNothing reading) ⊥ ⊥ }
    ensures long { Answers reply (Only (outcome.refused network.long_text)) ⊥ ⊥ → Finds result (Only (refused network.long_text)) ⊥ ⊥ }
{
    match reply {
        Reply::Refusal(reason) => Finding::Refusal(reason),
        _ => Finding::NoMemory,
    }
}

// The network of a text that is not too long.
fn network_of_text(alloc: Global, text: &[u8]) -> Result<Checked, Finding>
    requires { length text.now ≤ network.text_limit }
    ensures network { IfOk result (λ checked. HoldsNetwork checked.network text.now) }
    ensures none { IfErr result (λ finding. Finds finding (IsOfReading AllowsNothing (reading_of text.now)) ⊥ ⊥) }
{
    match network_in(alloc, text) {
        Ok(checked) => Ok(checked),
        Err(reply) => Err(unread(reply)),
    }
}

/// The network of the file of this name, in which no fault stands, or what is found if there is none.
pub fn network_of<S: Source>(alloc: Global, name: &str, files: &mut S) -> Result<Checked, Finding>
    ensures network { IfOk result (λ checked. IfSome (S.contents files.old name.now) (HoldsNetwork checked.network)) }
    ensures none { IfErr result (λ finding. Finds finding (IsOfFile AllowsNothing (S.contents files.old name.now)) (Rose (S.faults files.old name.now) (S.faults files.new name.now)) ⊥) }
    ensures contents { S.contents files.new ≡ S.contents files.old }
    ensures later { (n : List ℕ) → S.faults files.old n ≤ S.faults files.new n }
{
    match read_all(alloc, files, name, TEXT_LIMIT) {
        Ok(text) => network_of_text(alloc, &text),
        Err(InFault::TooLong) => Err(unread(long_text(alloc))),
        Err(InFault::Failed) => Err(Finding::ReadFailed),
        Err(InFault::Memory) => Err(Finding::NoMemory),
    }
}
