//! Names that repeat, and names that are not there.

use base_kit::{List, Text};
use numbered_names::{NameHashing, NamePlaces};
use std::test::Fail;

#[test]
fn the_first_of_a_name_is_found(rt: HostRuntime) -> Result<(), Fail> {
    let mut names = List::new(rt.alloc());
    for name in ["b", "a", "b", "c"] {
        names.push(Text::copy_of(rt.alloc(), name)?)?;
    }
    let places = NamePlaces::of(rt.alloc(), names.as_slice())?;
    assert_eq!(rt; places.place_of("b"), Some(0));
    assert_eq!(rt; places.place_of("c"), Some(3));
    assert_eq!(rt; places.place_of("d"), None);
    assert_eq!(rt; places.place_of_word(b"a"), Some(1));
    assert_eq!(rt; places.place_of_word(b"\xff"), None);
    let found = places.item_named(names.as_slice(), "a");
    assert_eq!(rt; found.map(|name| name.as_str()), Some("a"));
    Ok(())
}

#[test]
fn a_name_is_noted(rt: HostRuntime) -> Result<(), Fail> {
    let names: List<Text> = List::new(rt.alloc());
    let mut places = NamePlaces::new(rt.alloc(), NameHashing::plain());
    let name = Text::copy_of(rt.alloc(), "b")?;
    places.note(rt.alloc(), names.as_slice(), &name)?;
    assert_eq!(rt; places.place_of("b"), Some(0));
    assert_eq!(rt; places.place_of("c"), None);
    Ok(())
}
