//! Schedules are read.

use base_kit::{List, Text};
use route_run::{Activation, ScheduleRefusal, read_schedule};
use std::test::Fail;

fn names(rt: HostRuntime) -> Result<List<Text>, Fail> {
    let alloc = rt.alloc();
    let mut names = List::new(alloc);
    for name in ["a", "b", "c", "d"] {
        names
            .push(Text::copy_of(alloc, name).ok().ok_or("name")?)
            .ok()
            .ok_or("push")?;
    }
    Ok(names)
}

#[test]
fn schedules_are_read(rt: HostRuntime) -> Result<(), Fail> {
    let alloc = rt.alloc();
    let names = names(rt)?;
    if names.len() != 4 {
        return Err("names".into());
    }
    let schedule = read_schedule(alloc, b"d c\r\n\n\t*  a", &names)
        .ok()
        .ok_or("read")?;
    let wanted = [
        Activation::One(3),
        Activation::One(2),
        Activation::Round,
        Activation::One(0),
    ];
    assert!(rt; schedule.as_slice() == wanted.as_slice());
    assert_eq!(rt;
        read_schedule(alloc, b"", &names).ok().ok_or("read")?.len(),
        0
    );
    match read_schedule(alloc, b"a\n b z\nz", &names) {
        Err(ScheduleRefusal::UnknownRouter(line)) => assert_eq!(rt; line, 2),
        _ => return Err("refused".into()),
    }
    Ok(())
}
