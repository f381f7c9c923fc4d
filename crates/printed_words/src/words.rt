//! Words behind blanks.

ghost use Rattle.std.specs.Prelude.{◌≡◌, ◌++◌, OnOk, OnErr, string_bytes, map};
ghost use Rattle.std.specs.Fmt.{decimal};
ghost use Rattle.cfg_ast.specs.printing.Printed.{community_text};
ghost use Rattle.printed_words.specs.Grown.{HasGrown};
ghost use Rattle.printed_words.specs.Spaced.{spaced, spaced_words};

use crate::pieces::{Piece, add_community, add_number};
use base_kit::{List, NumSet, Text};
use std::alloc::AllocError;

/// Appends a word behind a blank.
pub fn put_word(text: &mut String, word: &str) -> Result<(), AllocError>
    ensures ok { OnOk result (string_bytes text.new ≡ string_bytes text.old ++ spaced word.now) }
    ensures err { OnErr result (HasGrown (string_bytes text.old) (string_bytes text.new)) }
{
    text.push_str(" ")?;
    text.push_str(word)
}

/// Appends a name behind a blank.
pub fn put_name(text: &mut String, name: &Text) -> Result<(), AllocError>
    ensures ok { OnOk result (string_bytes text.new ≡ string_bytes text.old ++ spaced name.now) }
    ensures err { OnErr result (HasGrown (string_bytes text.old) (string_bytes text.new)) }
{
    put_word(text, name.as_str())
}

/// Appends a number behind a blank.
pub fn put_number(text: &mut String, number: u32) -> Result<(), AllocError>
    ensures ok { OnOk result (string_bytes text.new ≡ string_bytes text.old ++ spaced (decimal number)) }
    ensures err { OnErr result (string_bytes text.new ≡ string_bytes text.old) }
{
    let mut piece = Piece::new();
    piece.push_str(" ");
    add_number(&mut piece, number);
    text.push_str(piece.as_str())
}

/// Appends each name behind a blank.
pub fn put_names(text: &mut String, names: &List<Text>) -> Result<(), AllocError>
    ensures ok { OnOk result (string_bytes text.new ≡ string_bytes text.old ++ spaced_words names.now) }
    ensures err { OnErr result (HasGrown (string_bytes text.old) (string_bytes text.new)) }
{
    let items = names.as_slice();
    for name in items {
        put_name(text, name)?;
    }
    Ok(())
}

/// Appends each number behind a blank.
pub fn put_numbers(text: &mut String, numbers: &List<u32>) -> Result<(), AllocError>
    ensures ok { OnOk result (string_bytes text.new ≡ string_bytes text.old ++ spaced_words (map decimal numbers.now)) }
    ensures err { OnErr result (HasGrown (string_bytes text.old) (string_bytes text.new)) }
{
    let items = numbers.as_slice();
    for number in items {
        put_number(text, *number)?;
    }
    Ok(())
}

// Appends a community behind a blank.
fn put_community_word(text: &mut String, community: u32) -> Result<(), AllocError>
    ensures ok { OnOk result (string_bytes text.new ≡ string_bytes text.old ++ spaced (community_text community)) }
    ensures err { OnErr result (string_bytes text.new ≡ string_bytes text.old) }
{
    let mut piece = Piece::new();
    piece.push_str(" ");
    add_community(&mut piece, community);
    text.push_str(piece.as_str())
}

/// Appends each community behind a blank.
pub fn put_communities(text: &mut String, comms: &NumSet) -> Result<(), AllocError>
    ensures ok { OnOk result (string_bytes text.new ≡ string_bytes text.old ++ spaced_words (map community_text comms.now)) }
    ensures err { OnErr result (HasGrown (string_bytes text.old) (string_bytes text.new)) }
{
    let items = comms.as_slice();
    for community in items {
        put_community_word(text, *community)?;
    }
    Ok(())
}
