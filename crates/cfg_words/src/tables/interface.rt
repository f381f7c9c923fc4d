//! The heads of lines of an interface.

ghost use Rattle.std.specs.Prelude.{◌≡◌};
ghost use Rattle.cfg_ast.specs.text.Heads.{interface_heads};
ghost use Rattle.cfg_words.specs.Rows.{rows_of, begun_by, going_on, narrowed};

use crate::heads::Head;
use cfg_ast::HeadClass::{Ignored, Refused, Router};
use cfg_ast::RouterForm;

/// The heads that begin with `i` and whose second word, if they have one, begins with this byte.
#[tactic(auto, unfolding(cfg_ast::specs::text::Heads::interface_heads, cfg_ast::specs::text::Lines::words_of))]
fn ip_heads(second: u8) -> &'static [Head]
    ensures { rows_of result.now ≡ going_on 1 second (begun_by 105 interface_heads) }
{
    match second {
        b'a' => &[
            Head(&["ip", "address"], Router(RouterForm::IpAddress)),
            Head(&["ipv6"], Refused),
            Head(&["ip", "access-group"], Ignored),
        ],
        b'f' => &[Head(&["ipv6"], Refused), Head(&["ip", "flow"], Ignored)],
        b'h' => &[
            Head(&["ipv6"], Refused),
            Head(&["ip", "helper-address"], Ignored),
        ],
        b'm' => &[Head(&["ipv6"], Refused), Head(&["ip", "mtu"], Ignored)],
        b'n' => &[Head(&["ipv6"], Refused), Head(&["ip", "nat"], Ignored)],
        b'o' => &[
            Head(&["ip", "ospf", "cost"], Router(RouterForm::Cost)),
            Head(&["ip", "ospf"], Refused),
            Head(&["ipv6"], Refused),
            Head(&["ip", "ospf", "priority"], Ignored),
            Head(&["ip", "ospf", "hello-interval"], Ignored),
            Head(&["ip", "ospf", "dead-interval"], Ignored),
            Head(&["ip", "ospf", "authentication"], Ignored),
            Head(&["ip", "ospf", "authentication-key"], Ignored),
            Head(&["ip", "ospf", "message-digest-key"], Ignored),
        ],
        b'p' => &[Head(&["ip", "policy"], Refused), Head(&["ipv6"], Refused)],
        b'r' => &[
            Head(&["ipv6"], Refused),
            Head(&["ip", "route-cache"], Ignored),
        ],
        b't' => &[Head(&["ipv6"], Refused), Head(&["ip", "tcp"], Ignored)],
        b'u' => &[
            Head(&["ip", "unnumbered"], Refused),
            Head(&["ipv6"], Refused),
        ],
        b'v' => &[
            Head(&["ip", "vrf"], Refused),
            Head(&["ipv6"], Refused),
            Head(&["ip", "virtual-reassembly"], Ignored),
        ],
        _ => &[Head(&["ipv6"], Refused)],
    }
}

/// The heads whose first word begins with this byte, in the order of the definition.
#[tactic(auto, unfolding(cfg_ast::specs::text::Heads::interface_heads, cfg_ast::specs::text::Lines::words_of))]
pub(crate) fn begun_by(first: u8, second: u8) -> &'static [Head]
    ensures { rows_of result.now ≡ narrowed 105 1 first second interface_heads }
{
    match first {
        b'a' => &[Head(&["arp"], Ignored)],
        b'b' => &[Head(&["bandwidth"], Refused)],
        b'c' => &[
            Head(&["clock"], Ignored),
            Head(&["channel-group"], Ignored),
            Head(&["cdp"], Ignored),
        ],
        b'd' => &[
            Head(&["description"], Ignored),
            Head(&["duplex"], Ignored),
            Head(&["delay"], Ignored),
        ],
        b'e' => &[Head(&["encapsulation"], Ignored)],
        b'h' => &[Head(&["hold-queue"], Ignored)],
        b'i' => ip_heads(second),
        b'k' => &[Head(&["keepalive"], Ignored)],
        b'l' => &[
            Head(&["load-interval"], Ignored),
            Head(&["lldp"], Ignored),
            Head(&["logging"], Ignored),
        ],
        b'm' => &[Head(&["media-type"], Ignored), Head(&["mtu"], Ignored)],
        b'n' => &[
            Head(&["negotiation"], Ignored),
            Head(&["no", "ip", "address"], Ignored),
            Head(&["no", "shutdown"], Ignored),
            Head(&["no", "keepalive"], Ignored),
            Head(&["no", "switchport"], Ignored),
            Head(&["no", "cdp"], Ignored),
            Head(&["no", "lldp"], Ignored),
            Head(&["no", "ip", "route-cache"], Ignored),
            Head(&["no", "ip", "proxy-arp"], Ignored),
            Head(&["no", "ip", "redirects"], Ignored),
            Head(&["no", "ip", "unreachables"], Ignored),
            Head(&["no", "ip", "directed-broadcast"], Ignored),
            Head(&["no", "mop"], Ignored),
        ],
        b'p' => &[Head(&["power"], Ignored)],
        b's' => &[
            Head(&["shutdown"], Router(RouterForm::Shutdown)),
            Head(&["speed"], Ignored),
            Head(&["switchport"], Ignored),
            Head(&["spanning-tree"], Ignored),
            Head(&["storm-control"], Ignored),
            Head(&["snmp"], Ignored),
            Head(&["serial"], Ignored),
            Head(&["service-policy"], Ignored),
        ],
        b'v' => &[Head(&["vrf"], Refused)],
        _ => &[],
    }
}
