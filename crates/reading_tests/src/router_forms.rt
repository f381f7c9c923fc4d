//! Router lines from the vendor's manuals.

ghost use Rattle.std.specs.Prelude.{◌≤◌, length};

use base_kit::Prefix;
use cfg_ast::NetLine;
use cfg_forms_router::{FormFault, RouterItem, Scope, router_item};
use cfg_lex::lines;
use std::alloc::Global;

// The item of a text's one line.
fn item_of(alloc: Global, text: &[u8], scope: Scope) -> Option<Result<RouterItem, FormFault>>
    requires { length text.now ≤ 16777216 }
{
    let lines = lines(alloc, text).ok()?;
    let lines = lines.as_slice();
    if lines.is_empty() {
        return None;
    }
    Some(router_item(alloc, text, &lines[0], scope))
}

#[test]
fn a_cost_is_at_least_1(rt: HostRuntime) {
    let none = item_of(rt.alloc(), b" ip ospf cost 0", Scope::Interface);
    assert!(rt; matches!(&none, Some(Err(FormFault::BadForm))));
    let ten = item_of(rt.alloc(), b" ip ospf cost 10", Scope::Interface);
    assert!(rt; matches!(&ten, Some(Ok(RouterItem::Cost(10)))));
}

#[test]
fn a_network_has_the_length_of_its_class(rt: HostRuntime) {
    let item = item_of(rt.alloc(), b" network 198.51.100.0", Scope::Bgp);
    let Some(Ok(RouterItem::Network(NetLine { prefix, line }))) = item else {
        assert!(rt; false);
        return;
    };
    assert_eq!(rt; prefix, Prefix::new(3325256704, 24));
    assert_eq!(rt; line, 1);
}

#[test]
fn names_are_copied(rt: HostRuntime) {
    let item = item_of(
        rt.alloc(),
        b" neighbor 192.0.2.1 route-map FROM-ISP in",
        Scope::Bgp,
    );
    let Some(Ok(RouterItem::PeerMap { addr, map, inward })) = item else {
        assert!(rt; false);
        return;
    };
    assert_eq!(rt; addr, 3221225985);
    assert_eq!(rt; map.name.as_str(), "FROM-ISP");
    assert!(rt; inward);
}
