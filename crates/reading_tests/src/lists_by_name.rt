//! Lists and entries.

use base_kit::Text;
use named_lists::{ByName, NamedList, Numbered, NumberedLists};
use numbered_names::NameHashing;
use std::alloc::Global;
use std::test::Fail;

#[derive(Drop)]
struct Line {
    number: u32,
    text: usize,
}

impl Numbered for Line {
    ghost number = { λ line. line.number };

    fn number(&self) -> u32 {
        self.number
    }
}

// Lines of these numbers under a name, the text of each its place.
fn put(
    alloc: Global,
    lists: &mut NumberedLists<Line>,
    name: &str,
    numbers: &[u32],
) -> Result<(), Fail> {
    for (place, number) in numbers.iter().enumerate() {
        let line = Line {
            number: *number,
            text: place,
        };
        lists.add(alloc, Text::copy_of(alloc, name)?, line)?;
    }
    Ok(())
}

// The texts of the lines of all lists, in order, as the digits behind a 1.
fn texts(lists: &[NamedList<Line>]) -> usize {
    let mut digits = 1usize;
    for list in lists {
        for line in list.entries.as_slice() {
            digits = digits.wrapping_mul(10).wrapping_add(line.text);
        }
    }
    digits
}

#[test]
fn entries_stand_by_number_and_those_of_one_number_as_they_came(
    rt: HostRuntime,
) -> Result<(), Fail> {
    let mut lists = NumberedLists::new(rt.alloc(), NameHashing::plain());
    put(rt.alloc(), &mut lists, "up", &[10, 20, 30])?;
    put(rt.alloc(), &mut lists, "down", &[30, 20, 10])?;
    put(rt.alloc(), &mut lists, "mixed", &[20, 10, 20, 15])?;
    let lists = lists.into_list(rt.alloc())?;
    assert_eq!(rt; lists.len(), 3);
    assert_eq!(rt; texts(lists.as_slice()), 10_122_101_302);
    Ok(())
}

#[test]
fn a_number_is_found_in_a_list_that_ascends_and_in_one_that_does_not(
    rt: HostRuntime,
) -> Result<(), Fail> {
    let mut lists = NumberedLists::new(rt.alloc(), NameHashing::plain());
    put(rt.alloc(), &mut lists, "up", &[10, 20, 30])?;
    put(rt.alloc(), &mut lists, "down", &[30, 20, 10])?;
    for number in [10u32, 20, 30] {
        assert!(rt; lists.has_entry("up", number));
        assert!(rt; lists.has_entry("down", number));
    }
    for number in [5u32, 25, 35] {
        assert!(rt; !lists.has_entry("up", number));
        assert!(rt; !lists.has_entry("down", number));
    }
    Ok(())
}

#[test]
fn lists_of_two_names_are_apart(rt: HostRuntime) -> Result<(), Fail> {
    let mut lists = NumberedLists::new(rt.alloc(), NameHashing::plain());
    put(rt.alloc(), &mut lists, "a", &[10])?;
    put(rt.alloc(), &mut lists, "b", &[20])?;
    put(rt.alloc(), &mut lists, "a", &[5])?;
    assert!(rt; lists.has_entry("a", 5));
    assert!(rt; !lists.has_entry("b", 5));
    assert!(rt; !lists.has_entry("a", 20));
    assert!(rt; !lists.has_entry("c", 10));
    Ok(())
}

#[test]
fn items_are_found_by_their_names(rt: HostRuntime) -> Result<(), Fail> {
    let mut items = ByName::new(rt.alloc(), NameHashing::plain());
    items.push(rt.alloc(), Text::copy_of(rt.alloc(), "a")?)?;
    assert!(rt; !items.has("b"));
    items.push(rt.alloc(), Text::copy_of(rt.alloc(), "b")?)?;
    assert!(rt; items.has("a"));
    assert!(rt; items.has("b"));
    assert!(rt; !items.has("ab"));
    Ok(())
}
