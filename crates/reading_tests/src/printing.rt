//! Words as they stand in a text.

use base_kit::{NumSet, Prefix, Text};
use printed_words::{
    Piece, add_address, add_community, add_number, add_octet, add_prefix, mask_text, put_address,
    put_communities, put_name, put_number, put_prefix,
};
use std::test::Fail;

#[test]
fn values_are_written_as_they_are_read(rt: HostRuntime) -> Result<(), Fail> {
    let mut text = String::new(rt.alloc());
    put_address(&mut text, 4_294_967_040)?;
    text.push_str(" ")?;
    put_prefix(&mut text, &Prefix::new(167_772_160, 8))?;
    assert_eq!(rt; text.as_str(), "255.255.255.0 10.0.0.0/8");
    Ok(())
}

#[test]
fn a_piece_is_put_together(rt: HostRuntime) -> Result<(), Fail> {
    let mut piece = Piece::new();
    add_address(&mut piece, 3_232_235_777);
    piece.push_str(mask_text(26));
    add_number(&mut piece, 4_294_967_295);
    assert_eq!(rt; piece.as_str(), "192.168.1.1255.255.255.1924294967295");
    piece.clear();
    add_octet(&mut piece, 99);
    add_prefix(&mut piece, &Prefix::new(0, 0));
    add_community(&mut piece, 4_294_967_295);
    assert_eq!(rt; piece.as_str(), "990.0.0.0/065535:65535");
    Ok(())
}

#[test]
fn words_stand_behind_blanks(rt: HostRuntime) -> Result<(), Fail> {
    let mut text = String::new(rt.alloc());
    put_name(&mut text, &Text::copy_of(rt.alloc(), "ams-1")?)?;
    put_number(&mut text, 65001)?;
    let mut comms = NumSet::new(rt.alloc());
    comms.add(65_537)?;
    comms.add(1)?;
    put_communities(&mut text, &comms)?;
    assert_eq!(rt; text.as_str(), " ams-1 65001 0:1 1:1");
    Ok(())
}
