//! Policy lines from the vendor's manuals.

ghost use Rattle.std.specs.Prelude.{◌≤◌, length};

use base_kit::Prefix;
use cfg_forms_policy::{FormFault, PolicyItem, PolicyScope, policy_item};
use cfg_lex::lines;
use std::alloc::Global;

// The item of a text's one line.
fn item_of(alloc: Global, text: &[u8], scope: PolicyScope) -> Option<Result<PolicyItem, FormFault>>
    requires { length text.now ≤ 16777216 }
{
    let lines = lines(alloc, text).ok()?;
    let lines = lines.as_slice();
    if lines.is_empty() {
        return None;
    }
    Some(policy_item(alloc, text, &lines[0], scope))
}

#[test]
fn an_entry_has_its_bounds(rt: HostRuntime) {
    let text = b"ip prefix-list P seq 5 permit 10.0.0.0/8 ge 16 le 24";
    let item = item_of(rt.alloc(), text, PolicyScope::Top);
    let Some(Ok(PolicyItem::PrefixEntry(name, entry))) = item else {
        assert!(rt; false);
        return;
    };
    assert_eq!(rt; name.as_str(), "P");
    assert_eq!(rt; entry.seq, 5);
    assert!(rt; entry.permit);
    assert_eq!(rt; entry.prefix, Prefix::new(167772160, 8));
    assert_eq!(rt; entry.ge, Some(16));
    assert_eq!(rt; entry.le, Some(24));
    let text = b"ip prefix-list P seq 5 permit 10.0.0.0/8 ge 24 le 16";
    let item = item_of(rt.alloc(), text, PolicyScope::Top);
    assert!(rt; matches!(&item, Some(Err(FormFault::BadForm))));
}

#[test]
fn communities_are_read(rt: HostRuntime) {
    let text = b"ip community-list standard CUST permit 65000:2 1:1";
    let item = item_of(rt.alloc(), text, PolicyScope::Top);
    let Some(Ok(PolicyItem::CommunityLine(name, line))) = item else {
        assert!(rt; false);
        return;
    };
    assert_eq!(rt; name.as_str(), "CUST");
    assert_eq!(rt; line.comms.as_slice(), [65537u32, 4259840002].as_slice());
    let item = item_of(
        rt.alloc(),
        b" set community 1:1 no-export",
        PolicyScope::Entry,
    );
    assert!(rt; matches!(&item, Some(Err(FormFault::WellKnown))));
    let item = item_of(rt.alloc(), b" set community 1:1 65537", PolicyScope::Entry);
    assert!(rt; matches!(&item, Some(Err(FormFault::BadForm))));
}

#[test]
fn prepended_numbers_may_repeat(rt: HostRuntime) {
    let item = item_of(rt.alloc(), b" set as-path prepend 7 7", PolicyScope::Entry);
    let Some(Ok(PolicyItem::Prepend(prepend))) = item else {
        assert!(rt; false);
        return;
    };
    assert_eq!(rt; prepend.numbers.as_slice(), [7u32, 7].as_slice());
    let item = item_of(
        rt.alloc(),
        b" match community exact-match exact-match",
        PolicyScope::Entry,
    );
    let Some(Ok(PolicyItem::MatchComms(line, exact))) = item else {
        assert!(rt; false);
        return;
    };
    assert!(rt; exact);
    assert_eq!(rt; line.names.as_slice().len(), 1);
}
