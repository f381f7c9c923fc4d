//! What is reported of the network of the groups of a class.

ghost use Rattle.std.specs.Prelude.{◌≡◌};
ghost use Rattle.answer_groups.specs.Compressing.{IsTextOf, IsTextOrRefusal};
ghost use Rattle.answer_groups.specs.CompressText.{pool_overlap, long_output};
ghost use Rattle.answer_kit.specs.Outcome.{refused};
ghost use Rattle.answer_kit.specs.Replies.{Answers, Only};

use answer_kit::{Reply, refuse};
use cfg_print::{PrintRefusal, text};
use config_emit::{EmitRefusal, Emitted};
use std::alloc::Global;

// The refusal of a class one of whose prefixes meets the addresses of the links.
fn pool_refusal(alloc: Global, line: u32) -> Reply
    ensures { Answers result (Only (refused (pool_overlap line))) ⊥ ⊥ }
{
    refuse(format!(in alloc; "line {line}: PoolOverlap"))
}

fn length_refusal(alloc: Global) -> Reply
    ensures { Answers result (Only (refused long_output)) ⊥ ⊥ }
{
    refuse(format!(in alloc; "OutputTooLong"))
}

// The text of a network with its notes.
fn text_reply(alloc: Global, emitted: &Emitted) -> Reply
    ensures { Answers result (IsTextOf emitted.now) ⊥ ⊥ }
{
    match text(alloc, &emitted.network, &emitted.notes) {
        Ok(bytes) => Reply::Output(bytes),
        Err(PrintRefusal::TooLong) => length_refusal(alloc),
        Err(PrintRefusal::Memory) => Reply::NoMemory,
    }
}

/// The text of the network of the groups of a class, or why none is written.
pub(crate) fn told(alloc: Global, emitted: Result<Emitted, EmitRefusal>) -> Reply
    ensures { Answers result (IsTextOrRefusal emitted) ⊥ ⊥ }
{
    match emitted {
        Ok(emitted) => text_reply(alloc, &emitted),
        Err(EmitRefusal::PoolOverlap(line)) => pool_refusal(alloc, line),
        Err(EmitRefusal::Memory) => Reply::NoMemory,
    }
}
