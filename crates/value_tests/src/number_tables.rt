//! Tables of many numbers have hashes of their own.

use number_hashing::{NumberDigest, NumberHashing};
use std::hash::BuildHasher;
use std::test::Fail;

// The hash of a table of so many numbers, the last of which is given.
fn hashing_with(count: u32, last: u32) -> NumberHashing {
    let mut numbers = NumberDigest::for_count(count as usize);
    for number in 1..count {
        numbers.add_number(u64::from(number));
    }
    numbers.add_number(u64::from(last));
    numbers.hashing()
}

#[test]
fn few_numbers_are_hashed_as_the_kit_does_it(rt: HostRuntime) -> Result<(), Fail> {
    let plain = NumberHashing::plain().hash_one(7u32);
    assert_eq!(rt; hashing_with(64, 1).hash_one(7u32), plain);
    Ok(())
}

#[test]
fn one_number_changes_the_hash_of_many(rt: HostRuntime) -> Result<(), Fail> {
    let one = hashing_with(65, 1).hash_one(7u32);
    let other = hashing_with(65, 2).hash_one(7u32);
    assert!(rt; one != other);
    assert!(rt; one != NumberHashing::plain().hash_one(7u32));
    Ok(())
}
