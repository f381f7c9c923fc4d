//! The network of a text, or what is reported where there is none: the first step of every command that
//! reads a network.
#![tactic(auto)]

ghost use Rattle.std.specs.Prelude.{◌≡◌, ◌≤◌, length, Ok, IfOk, IfErr};
ghost use Rattle.cfg_ast.specs.text.Reading.{reading_of};
ghost use Rattle.answer_kit.specs.Kinds.{line_reason};
ghost use Rattle.answer_kit.specs.Networks.{text_limit, long_text, IsOfReading, AllowsNoNetwork, Refuses};
ghost use Rattle.answer_kit.specs.Outcome.{refused};
ghost use Rattle.answer_kit.specs.Replies.{Answers, Only};

use answer_kit::{Reply, name_of_kind, refuse};
use cfg_ast::{Kind, ReadRefusal};
use cfg_check::{Checked, check_network};
use cfg_parse::read_network;
use std::alloc::Global;

/// A text has at most this many bytes.
pub const TEXT_LIMIT: usize = 16_777_216;

/// The refusal of a text that has more.
pub fn long_text(alloc: Global) -> Reply
    ensures { Answers result (Only (refused long_text)) ⊥ ⊥ }
{
    refuse(format!(in alloc; "FileTooLong"))
}

// The refusal of a text, by its line and kind.
fn line_refusal(alloc: Global, line: u32, kind: Kind) -> Reply
    ensures { Answers result (Only (refused (line_reason line kind))) ⊥ ⊥ }
{
    let name = name_of_kind(kind);
    refuse(format!(in alloc; "line {line}: {name}"))
}

fn text_refusal(alloc: Global, refusal: ReadRefusal) -> Reply
    ensures { Refuses result refusal }
{
    match refusal {
        ReadRefusal::At { line, kind } => line_refusal(alloc, line, kind),
        ReadRefusal::Memory => Reply::NoMemory,
    }
}

/// The network of a text in which no fault stands, or the reply to report if there is none.
pub fn network_in(alloc: Global, text: &[u8]) -> Result<Checked, Reply>
    requires { length text.now ≤ text_limit }
    ensures read { IfOk result (λ checked. reading_of text.now ≡ Ok checked.network) }
    ensures none { IfErr result (λ reply. Answers reply (IsOfReading AllowsNoNetwork (reading_of text.now)) ⊥ ⊥) }
{
    let network = match read_network(alloc, text) {
        Ok(network) => network,
        Err(refusal) => return Err(text_refusal(alloc, refusal)),
    };
    match check_network(alloc, network) {
        Ok(checked) => Ok(checked),
        Err(refusal) => Err(text_refusal(alloc, refusal)),
    }
}
