//! Communities in the words of a line.

ghost use Rattle.std.specs.Prelude.{◌≡◌};
ghost use Rattle.cfg_ast.specs.text.Words.{is_colon, community_word};

use crate::marks::{behind, has, place_of};
use crate::numbers::read_between;

/// Reads a community: a number from 1 on, or two numbers up to 65535 joined by a colon.
#[tactic(auto, unfolding(cfg_ast::specs::text::Words::community_word))]
pub fn read_community(word: &[u8]) -> Option<u32>
    ensures { result ≡ community_word word.now }
{
    if !has(word, b':') {
        return read_between(word, 1, u32::MAX);
    }
    let colon = place_of(word, b':');
    let high = read_between(&word[..colon], 0, 65535)?;
    let low = read_between(behind(word, colon), 0, 65535)?;
    Some(65536 * high + low)
}
