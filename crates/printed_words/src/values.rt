//! Numbers, addresses and prefixes at the end of a text.

ghost use Rattle.std.specs.Prelude.{◌≡◌, ◌++◌, OnOk, OnErr, string_bytes};
ghost use Rattle.std.specs.Fmt.{decimal};
ghost use Rattle.cfg_ast.specs.printing.Printed.{address_text, prefix_text};

use crate::pieces::{Piece, add_address, add_prefix};
use base_kit::Prefix;
use itoa::Buffer;
use std::alloc::AllocError;

/// Appends the digits of a number.
pub fn put_digits(text: &mut String, number: u64) -> Result<(), AllocError>
    ensures ok { OnOk result (string_bytes text.new ≡ string_bytes text.old ++ decimal number) }
    ensures err { OnErr result (string_bytes text.new ≡ string_bytes text.old) }
{
    let mut digits = Buffer::new();
    text.push_str(digits.format(number))
}

/// Appends an address: four numbers joined by points.
pub fn put_address(text: &mut String, addr: u32) -> Result<(), AllocError>
    ensures ok { OnOk result (string_bytes text.new ≡ string_bytes text.old ++ address_text addr) }
    ensures err { OnErr result (string_bytes text.new ≡ string_bytes text.old) }
{
    let mut piece = Piece::new();
    add_address(&mut piece, addr);
    text.push_str(piece.as_str())
}

/// Appends a prefix: its address and its length behind a slash.
pub fn put_prefix(text: &mut String, prefix: &Prefix) -> Result<(), AllocError>
    ensures ok { OnOk result (string_bytes text.new ≡ string_bytes text.old ++ prefix_text prefix.now) }
    ensures err { OnErr result (string_bytes text.new ≡ string_bytes text.old) }
{
    let mut piece = Piece::new();
    add_prefix(&mut piece, prefix);
    text.push_str(piece.as_str())
}
