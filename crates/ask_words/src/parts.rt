//! The parts of a word between commas.

ghost use Rattle.std.specs.Prelude.{◌≡◌, ◌<◌, ◌∷◌, [], map, length, IfOk, IfSome, MatchOption};
ghost use Rattle.ask_words.specs.NameLists.{parts_of};

use base_kit::NoMemory;
use cfg_words::marks::{behind, has, place_of};
use std::alloc::Global;

// The part before the first comma, and what is behind it.
fn cut_at_comma(word: &[u8]) -> Option<(&[u8], &[u8])>
    ensures parts { MatchOption result (parts_of word.now ≡ word.now ∷ []) (λ cut. parts_of word.now ≡ cut.0.now ∷ parts_of cut.1.now) }
    ensures shorter { IfSome result (λ cut. length cut.1.now < length word.now) }
{
    if !has(word, b',') {
        return None;
    }
    let comma = place_of(word, b',');
    Some((&word[..comma], behind(word, comma)))
}

/// The parts of a word between commas.
pub(crate) fn parts(alloc: Global, word: &[u8]) -> Result<Vec<&[u8]>, NoMemory>
    ensures { IfOk result (λ parts. map (λ part. part.now) parts.items ≡ parts_of word.now) }
{
    let mut parts = Vec::new(alloc);
    let mut rest = word;
    while let Some((part, more)) = cut_at_comma(rest) {
        parts.push(part)?;
        rest = more;
    }
    parts.push(rest)?;
    Ok(parts)
}
