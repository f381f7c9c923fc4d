//! The memory keeps the last operations.

use dd_cache::{Cache, OpKey};
use std::test::Fail;

#[test]
fn keeps_the_last_of_two(rt: HostRuntime) -> Result<(), Fail> {
    let first = OpKey { a: 1, b: 2, c: 3 };
    let second = OpKey { a: 1, b: 2, c: 4 };
    let mut cache = Cache::new(rt.alloc(), 1).ok().ok_or("new")?;
    cache.keep(first, 5).ok().ok_or("keep")?;
    assert_eq!(rt; cache.recall(first), Some(5));
    cache.keep(second, 6).ok().ok_or("keep")?;
    assert_eq!(rt; cache.recall(first), None);
    assert_eq!(rt; cache.recall(second), Some(6));
    Ok(())
}

#[test]
fn recalling_saves_an_entry_and_looking_does_not(rt: HostRuntime) -> Result<(), Fail> {
    let key = |n| OpKey { a: n, b: 0, c: 0 };
    let mut cache = Cache::new(rt.alloc(), 2).ok().ok_or("new")?;
    cache.keep(key(1), 10).ok().ok_or("keep")?;
    cache.keep(key(2), 20).ok().ok_or("keep")?;
    assert_eq!(rt; cache.recall(key(1)), Some(10));
    cache.keep(key(3), 30).ok().ok_or("keep")?;
    assert_eq!(rt; cache.look(key(2)), None);
    assert_eq!(rt; cache.look(key(1)), Some(10));
    cache.keep(key(4), 40).ok().ok_or("keep")?;
    assert_eq!(rt; cache.look(key(1)), None);
    assert_eq!(rt; cache.look(key(3)), Some(30));
    Ok(())
}
