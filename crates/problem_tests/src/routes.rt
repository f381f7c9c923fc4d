//! Paths that are longer than what they hold themselves, and each public call once.

use base_kit::{NoMemory, NumSet};
use number_hashing::NumberHashing;
use route_keys::LoneNumbers;
use shared_routes::{
    RouteParts, SharedLabels, SharedPath, SharedRoute, comms_of, lone_on, preference_of, size_of,
};
use std::alloc::Global;
use std::test::Fail;

// The path 300, 299, .., 1, of which each number was put before the path so far.
fn long_path(alloc: Global) -> Result<SharedPath, NoMemory> {
    let mut path = SharedPath::from_slice(alloc, &[])?;
    for number in 1..301u32 {
        path = path.lengthened(alloc, number, 0)?;
    }
    Ok(path)
}

fn long_route(alloc: Global) -> Result<SharedRoute, NoMemory> {
    let mut comms = NumSet::new(alloc);
    comms.add(9)?;
    let path = long_path(alloc)?;
    Ok(SharedRoute::from_parts(RouteParts::Bgp {
        lp: 200,
        path,
        comms,
    }))
}

#[test]
fn a_long_path_has_its_numbers(rt: HostRuntime) -> Result<(), Fail> {
    let path = long_path(rt.alloc())?;
    assert_eq!(rt; path.len(), 300);
    let numbers = path.numbers(rt.alloc())?;
    let mut number = 300u32;
    for other in numbers.as_slice() {
        assert_eq!(rt; *other, number);
        number = number.saturating_sub(1);
    }
    assert_eq!(rt; number, 0);
    assert!(rt; path.has(1));
    assert!(rt; path.has(300));
    assert!(rt; !path.has(301));
    Ok(())
}

#[test]
fn what_is_shared_outlives_its_path(rt: HostRuntime) -> Result<(), Fail> {
    let alloc = rt.alloc();
    let mut path = SharedPath::from_slice(alloc, &[5])?;
    path = path.lengthened(alloc, 6, 255)?;
    let longer = path.lengthened(alloc, 7, 2)?;
    let other = path.copy(alloc)?;
    drop(path);
    assert_eq!(rt; other.len(), 257);
    assert_eq!(rt; longer.len(), 260);
    let numbers = longer.numbers(alloc)?;
    assert_eq!(rt; numbers.as_slice().first(), Some(&7));
    assert_eq!(rt; numbers.as_slice().last(), Some(&5));
    Ok(())
}

#[test]
fn a_route_has_its_parts(rt: HostRuntime) -> Result<(), Fail> {
    let alloc = rt.alloc();
    let plain = long_route(alloc)?.plain(alloc)?;
    assert!(rt; plain.has_on_path(300));
    let route = SharedRoute::from_route(alloc, &plain)?.copy(alloc)?;
    assert_eq!(rt; preference_of(&route), 200);
    assert_eq!(rt; size_of(&route), 300);
    assert_eq!(rt; comms_of(&route), [9u32].as_slice());
    assert!(rt; route.has_on_path(150));
    let mut numbers = LoneNumbers::with_hasher(alloc, NumberHashing::plain());
    for number in [301, 300, 2] {
        numbers.insert(number)?;
    }
    let lone = lone_on(alloc, &numbers, &route)?;
    assert_eq!(rt; lone.as_slice(), [2u32, 300].as_slice());
    let cost = SharedRoute::from_parts(RouteParts::Ospf { cost: 7 });
    assert_eq!(rt; size_of(&cost), 7);
    assert!(rt; matches!(cost.parts(), RouteParts::Ospf { .. }));
    Ok(())
}

#[test]
fn labels_are_made_plain(rt: HostRuntime) -> Result<(), Fail> {
    let alloc = rt.alloc();
    let mut labels = SharedLabels::new(alloc);
    labels.push(None)?;
    labels.push(None)?;
    labels.set(1, Some(long_route(alloc)?));
    assert!(rt; labels.as_slice()[1].is_some());
    let plain = labels.plain(alloc)?;
    assert_eq!(rt; plain.as_slice().len(), 2);
    assert!(rt; plain.as_slice()[0].is_none());
    Ok(())
}
