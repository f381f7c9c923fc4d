//! The reasons of refusals.

use ask_requests::Fault;
use base_kit::Text;
use std::test::Fail;

#[test]
fn a_fault_gives_its_reason(rt: HostRuntime) -> Result<(), Fail> {
    let class = Fault::NoClass.reason(rt.alloc(), "7-9")?;
    let pair = Text::copy_of(rt.alloc(), "a:b")?;
    let link = Fault::NoLink(pair).reason(rt.alloc(), "7-9")?;
    assert!(rt; class.as_str() == "NoClass 7-9");
    assert!(rt; link.as_str() == "NoLink a:b");
    Ok(())
}
