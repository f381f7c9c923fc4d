//! A copied route has its path.

use base_kit::{List, NumSet};
use srp_core::{Labels, Route};
use std::test::Fail;

#[test]
fn a_copied_route_has_its_path(rt: HostRuntime) -> Result<(), Fail> {
    let alloc = rt.alloc();
    let mut path = List::new(alloc);
    path.push(65001).ok().ok_or("push")?;
    path.push(65002).ok().ok_or("push")?;
    let route = Route::Bgp {
        lp: 100,
        path,
        comms: NumSet::new(alloc),
    };
    let copy = route.copy(alloc).ok().ok_or("copy")?;
    assert!(rt; copy.has_on_path(65002));
    assert!(rt; !copy.has_on_path(65003));
    let mut labels = Labels::new(alloc);
    labels.push(Some(copy)).ok().ok_or("push")?;
    labels.push(None).ok().ok_or("push")?;
    assert_eq!(rt; labels.as_slice().len(), 2);
    labels.set(1, Some(route));
    assert!(rt; labels.as_slice()[1].is_some());
    Ok(())
}
