//! Each public call once, with values from outside.

use base_kit::{List, NumSet, Text, read_address, read_number};
use std::cmp::Ordering;
use std::test::Fail;

#[test]
fn lists_and_texts_grow(rt: HostRuntime) -> Result<(), Fail> {
    let mut list = List::new(rt.alloc());
    list.push(3u32)?;
    assert_eq!(rt; list.as_slice(), [3u32].as_slice());
    list.insert(0, 2)?;
    assert_eq!(rt; list.as_slice(), [2, 3].as_slice());
    let mut text = Text::new(rt.alloc());
    text.push_str("ab")?;
    assert_eq!(rt; text.as_str(), "ab");
    let copy = Text::copy_of(rt.alloc(), "ab")?;
    assert_eq!(rt; copy.as_str(), "ab");
    let text = Text::from_string(text.into_string());
    assert_eq!(rt; text.as_str(), "ab");
    Ok(())
}

#[test]
fn sets_keep_their_order(rt: HostRuntime) -> Result<(), Fail> {
    let mut set = NumSet::new(rt.alloc());
    set.add(3)?;
    let three = set.copy()?;
    set.add(1)?;
    assert_eq!(rt; set.as_slice(), [1u32, 3].as_slice());
    let one = set.without(3)?;
    assert_eq!(rt; one.as_slice(), [1u32].as_slice());
    assert_eq!(rt; set.as_slice(), [1u32, 3].as_slice());
    assert_eq!(rt; set.cmp(&three), Ordering::Less);
    Ok(())
}

#[test]
fn numbers_are_read(rt: HostRuntime) {
    let cases: [(&[u8], Option<u32>); 9] = [
        (b"0", Some(0)),
        (b"7", Some(7)),
        (b"4294967295", Some(4294967295)),
        (b"", None),
        (b"00", None),
        (b"07", None),
        (b"+1", None),
        (b"4294967296", None),
        (b"1a", None),
    ];
    for (word, number) in cases {
        assert_eq!(rt; read_number(word), number);
    }
}

#[test]
fn addresses_are_read(rt: HostRuntime) {
    let cases: [(&[u8], Option<u32>); 6] = [
        (b"10.0.0.1", Some(167772161)),
        (b"10.0.0", None),
        (b"10.0.0.256", None),
        (b"10.0.0.01", None),
        (b"10.0.0.1.", None),
        (b"10..0.1", None),
    ];
    for (word, address) in cases {
        assert_eq!(rt; read_address(word), address);
    }
}
