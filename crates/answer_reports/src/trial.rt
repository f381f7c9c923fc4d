//! The command `trial`.

ghost use Rattle.std.specs.Prelude.{◌≡◌};
ghost use Rattle.answer_kit.specs.Outcome.{refused};
ghost use Rattle.answer_kit.specs.Replies.{Answers, Only};
ghost use Rattle.answer_reports.specs.Trials.{IsSummaryOfText, bad_size, IsTrialAnswer};

use crate::summary;
use answer_kit::{Reply, refuse};
use answer_texts::{TEXT_LIMIT, long_text, network_in};
use fat_gen::{FatRefusal, fat_tree};
use std::alloc::Global;

// The summary of the network that a text gives.
fn summary_of_text(alloc: Global, text: &[u8]) -> Reply
    ensures { Answers result (IsSummaryOfText text.now) ⊥ ⊥ }
{
    if text.len() > TEXT_LIMIT {
        return long_text(alloc);
    }
    match network_in(alloc, text) {
        Ok(checked) => summary::answer(alloc, &checked),
        Err(reply) => reply,
    }
}

// The refusal where there is no fat tree of this size.
fn size_refusal(alloc: Global, size: u32) -> Reply
    ensures { Answers result (Only (refused (bad_size size))) ⊥ ⊥ }
{
    refuse(format!(in alloc; "BadSize {size}"))
}

/// The summary of the fat tree of this size, or a refusal where there is none.
pub fn answer(alloc: Global, size: u32) -> Reply
    ensures { Answers result (IsTrialAnswer size) ⊥ ⊥ }
{
    match fat_tree(alloc, size) {
        Ok(text) => summary_of_text(alloc, &text),
        Err(FatRefusal::BadSize) => size_refusal(alloc, size),
        Err(FatRefusal::Memory) => Reply::NoMemory,
    }
}
