//! The line of the counts.

use group_report::count_line;
use std::test::Fail;

#[test]
fn the_counts_of_a_class_stand_on_a_line(rt: HostRuntime) -> Result<(), Fail> {
    let alloc = rt.alloc();
    let line = count_line(alloc, 1, 4, 4, 3, 2).ok().ok_or("count_line")?;
    assert_eq!(rt;
        line.as_slice(),
        b"class 1: 4 routers 4 links 3 groups 2 links\n".as_slice()
    );
    Ok(())
}
