//! The words of a line.

ghost use Rattle.std.specs.Prelude.{◌≡◌, ◌^◌, ◌<◌, ◌≤◌, IfOk, length};
ghost use Rattle.cfg_ast.specs.text.Lines.{words_between, are_kept};

use crate::places::{is_blank, word_end};
use base_kit::{List, NoMemory};
use cfg_ast::Span;
use std::alloc::Global;

// The words between two places.
#[tactic(auto, using(cfg_ast::proofs::WordRuns::words_blank, cfg_ast::proofs::WordRuns::words_word, cfg_ast::proofs::WordRuns::words_end, cfg_ast::proofs::WordRuns::word_past))]
pub(crate) fn words_between(
    alloc: Global,
    bytes: &[u8],
    from: usize,
    upto: usize,
) -> Result<List<Span>, NoMemory>
    requires front { from ≤ upto }
    requires end { upto ≤ length bytes.now }
    requires short { length bytes.now < 2 ^ 32 }
    ensures { IfOk result (λ found. found ≡ words_between bytes.now from upto) }
{
    let mut found = List::new(alloc);
    let mut i = from;
    while i < upto {
        if is_blank(bytes[i]) {
            i += 1;
        } else {
            let end = word_end(bytes, i, upto);
            found.push(Span {
                from: i as u32,
                upto: end as u32,
            })?;
            i = end;
        }
    }
    Ok(found)
}

// Whether a line of these words is not skipped.
pub(crate) fn are_kept(bytes: &[u8], words: &[Span]) -> bool
    ensures { result ≡ are_kept bytes.now words.now }
{
    match words {
        [] => false,
        [first, ..] => {
            let from = first.from as usize;
            from >= bytes.len() || bytes[from] != b'!'
        }
    }
}
