//! Pieces of lines that are put together before they are appended, so that one call appends each.

ghost use Rattle.std.specs.Prelude.{◌≡◌, ◌+◌, ◌≤◌, ◌++◌, length};
ghost use Rattle.std.specs.Fmt.{decimal};
ghost use Rattle.cfg_ast.specs.printing.Printed.{address_text, prefix_text, community_text};

use crate::tables::octet_text;
use arrayvec::ArrayString;
use base_kit::Prefix;
use itoa::Buffer;

/// A piece of a line, of at most 64 bytes: some words with two addresses and a number.
pub type Piece = ArrayString<64>;

/// Adds the digits of a number.
pub fn add_number(piece: &mut Piece, number: u32)
    requires { length piece.old.bytes + 10 ≤ 64 }
    ensures bytes { piece.new.bytes ≡ piece.old.bytes ++ decimal number }
    ensures len { length piece.new.bytes ≤ length piece.old.bytes + 10 }
{
    let mut digits = Buffer::new();
    piece.push_str(digits.format(number));
}

/// Adds the digits of a number of 8 bits.
pub fn add_octet(piece: &mut Piece, number: u8)
    requires { length piece.old.bytes + 3 ≤ 64 }
    ensures bytes { piece.new.bytes ≡ piece.old.bytes ++ decimal number }
    ensures len { length piece.new.bytes ≤ length piece.old.bytes + 3 }
{
    piece.push_str(octet_text(number));
}

/// Adds an address: four numbers joined by points.
#[tactic(auto, unfolding(cfg_ast::specs::printing::Printed::address_text))]
pub fn add_address(piece: &mut Piece, addr: u32)
    requires { length piece.old.bytes + 15 ≤ 64 }
    ensures bytes { piece.new.bytes ≡ piece.old.bytes ++ address_text addr }
    ensures len { length piece.new.bytes ≤ length piece.old.bytes + 15 }
{
    add_octet(piece, (addr / 16_777_216) as u8);
    piece.push_str(".");
    add_octet(piece, (addr / 65_536 % 256) as u8);
    piece.push_str(".");
    add_octet(piece, (addr / 256 % 256) as u8);
    piece.push_str(".");
    add_octet(piece, (addr % 256) as u8);
}

/// Adds a prefix: its address and its length behind a slash.
#[tactic(auto, unfolding(cfg_ast::specs::printing::Printed::prefix_text))]
pub fn add_prefix(piece: &mut Piece, prefix: &Prefix)
    requires { length piece.old.bytes + 19 ≤ 64 }
    ensures bytes { piece.new.bytes ≡ piece.old.bytes ++ prefix_text prefix.now }
    ensures len { length piece.new.bytes ≤ length piece.old.bytes + 19 }
{
    add_address(piece, prefix.addr());
    piece.push_str("/");
    add_octet(piece, prefix.len());
}

/// Adds a community: its two halves joined by a colon.
#[tactic(auto, unfolding(cfg_ast::specs::printing::Printed::community_text))]
pub fn add_community(piece: &mut Piece, community: u32)
    requires { length piece.old.bytes + 21 ≤ 64 }
    ensures bytes { piece.new.bytes ≡ piece.old.bytes ++ community_text community }
    ensures len { length piece.new.bytes ≤ length piece.old.bytes + 21 }
{
    add_number(piece, community / 65_536);
    piece.push_str(":");
    add_number(piece, community % 65_536);
}
