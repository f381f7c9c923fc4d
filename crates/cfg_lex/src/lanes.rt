//! Sixteen bytes of a text, looked at together.

ghost use Rattle.std.specs.Prelude.{◌≡◌, ◌+◌, ◌≤◌, length};
ghost use Rattle.cfg_ast.specs.text.Lines.{is_plain};
ghost use Rattle.cfg_lex.specs.Odd.{is_letter};
ghost use Rattle.cfg_lex.specs.Runs.{IsRunIn, first_set};

use std::simd::prelude::*;

/// So many bytes are looked at together.
pub(crate) const LANES: usize = 16;

fn first_set(mask: u64) -> usize
    ensures { result ≡ first_set mask 16 }
{
    if mask == 0 {
        LANES
    } else {
        mask.trailing_zeros() as usize
    }
}

/// How many of the sixteen bytes from a place on are plain, up to the first that is not.
pub(crate) fn plain_run(bytes: &[u8], at: usize) -> usize
    requires { at + 16 ≤ length bytes.now }
    ensures { IsRunIn is_plain bytes.now at 16 result }
{
    let lanes = u8x16::from_slice(&bytes[at..]);
    let control = lanes.simd_lt(u8x16::splat(b' ')) & lanes.simd_ne(u8x16::splat(b'\t'));
    let odd = control | lanes.simd_ge(u8x16::splat(0x7F));
    first_set(odd.to_bitmask())
}

/// How many of the sixteen bytes from a place on are those of words, up to the first that is not.
pub(crate) fn letter_run(bytes: &[u8], at: usize) -> usize
    requires { at + 16 ≤ length bytes.now }
    ensures { IsRunIn is_letter bytes.now at 16 result }
{
    let lanes = u8x16::from_slice(&bytes[at..]);
    let odd = lanes.simd_lt(u8x16::splat(b'!')) | lanes.simd_ge(u8x16::splat(0x7F));
    first_set(odd.to_bitmask())
}
