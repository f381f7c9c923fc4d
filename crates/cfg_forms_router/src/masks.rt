//! Masks, and the lengths of classful networks.

ghost use Rattle.std.specs.Prelude.{◌≡◌, ◌≤◌, IfSome};
ghost use Rattle.cfg_ast.specs.text.Words.{len_of_mask, mask_len_of, classful_len_of};

use cfg_ast::mask_of;
use cfg_words::read_address;

#[tactic(auto, using(crate::proofs::Ranges::find_here, crate::proofs::Ranges::find_next), unfolding(cfg_ast::specs::text::Words::len_of_mask))]
fn len_of_mask(mask: u32) -> Option<u8>
    ensures value { result ≡ len_of_mask mask }
    ensures bound { IfSome result (λ len. (1 ≤ len) × (len ≤ 32)) }
{
    for len in 1..33u8 {
        if mask_of(len) == mask {
            return Some(len);
        }
    }
    None
}

/// Reads a mask, and gives its length, from 1 to 32.
#[tactic(auto, unfolding(cfg_ast::specs::text::Words::mask_len_of))]
pub(crate) fn read_mask(word: &[u8]) -> Option<u8>
    ensures value { result ≡ mask_len_of word.now }
    ensures bound { IfSome result (λ len. (1 ≤ len) × (len ≤ 32)) }
{
    len_of_mask(read_address(word)?)
}

/// The length of a network by the class of its address (RFC 791 section 3.2).
#[tactic(auto, unfolding(cfg_ast::specs::text::Words::classful_len_of))]
pub(crate) fn classful_len(addr: u32) -> Option<u8>
    ensures value { result ≡ classful_len_of addr }
    ensures bound { IfSome result (λ len. len ≤ 32) }
{
    let first = addr / 16777216;
    if first < 1 || first > 223 {
        None
    } else if first <= 127 {
        Some(8)
    } else if first <= 191 {
        Some(16)
    } else {
        Some(24)
    }
}
