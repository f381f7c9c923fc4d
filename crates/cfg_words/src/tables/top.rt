//! The heads of top lines.

ghost use Rattle.std.specs.Prelude.{◌≡◌};
ghost use Rattle.cfg_ast.specs.text.Heads.{top_heads};
ghost use Rattle.cfg_words.specs.Rows.{rows_of, begun_by, going_on, narrowed};

use crate::heads::Head;
use cfg_ast::HeadClass::{Ignored, Policy, Refused, Router};
use cfg_ast::{PolicyForm, RouterForm};

/// The heads that begin with `i` and whose second word, if they have one, begins with this byte.
#[tactic(auto, unfolding(cfg_ast::specs::text::Heads::top_heads, cfg_ast::specs::text::Lines::words_of))]
fn ip_heads(second: u8) -> &'static [Head]
    ensures { rows_of result.now ≡ going_on 1 second (begun_by 105 top_heads) }
{
    match second {
        b'a' => &[
            Head(&["interface"], Router(RouterForm::Interface)),
            Head(&["ip", "as-path"], Refused),
            Head(&["ipv6"], Refused),
            Head(&["ip", "access-list"], Ignored),
        ],
        b'b' => &[
            Head(&["interface"], Router(RouterForm::Interface)),
            Head(&["ipv6"], Refused),
            Head(&["ip", "bgp-community", "new-format"], Ignored),
        ],
        b'c' => &[
            Head(&["interface"], Router(RouterForm::Interface)),
            Head(&["ip", "community-list"], Policy(PolicyForm::CommunityLine)),
            Head(&["ip", "community-list", "expanded"], Refused),
            Head(&["ip", "community-list", "100-500"], Refused),
            Head(&["ipv6"], Refused),
            Head(&["ip", "cef"], Ignored),
            Head(&["ip", "classless"], Ignored),
        ],
        b'd' => &[
            Head(&["interface"], Router(RouterForm::Interface)),
            Head(&["ip", "default-network"], Refused),
            Head(&["ipv6"], Refused),
            Head(&["ip", "domain"], Ignored),
            Head(&["ip", "domain-name"], Ignored),
            Head(&["ip", "domain-lookup"], Ignored),
            Head(&["ip", "dhcp"], Ignored),
        ],
        b'e' => &[
            Head(&["interface"], Router(RouterForm::Interface)),
            Head(&["ip", "extcommunity-list"], Refused),
            Head(&["ipv6"], Refused),
        ],
        b'f' => &[
            Head(&["interface"], Router(RouterForm::Interface)),
            Head(&["ipv6"], Refused),
            Head(&["ip", "forward-protocol"], Ignored),
            Head(&["ip", "ftp"], Ignored),
        ],
        b'h' => &[
            Head(&["interface"], Router(RouterForm::Interface)),
            Head(&["ipv6"], Refused),
            Head(&["ip", "http"], Ignored),
        ],
        b'n' => &[
            Head(&["interface"], Router(RouterForm::Interface)),
            Head(&["ipv6"], Refused),
            Head(&["ip", "name-server"], Ignored),
        ],
        b'p' => &[
            Head(&["interface"], Router(RouterForm::Interface)),
            Head(&["ip", "prefix-list"], Policy(PolicyForm::PrefixEntry)),
            Head(&["ip", "policy-list"], Refused),
            Head(&["ipv6"], Refused),
            Head(&["ip", "prefix-list", "A", "description"], Ignored),
        ],
        b'r' => &[
            Head(&["interface"], Router(RouterForm::Interface)),
            Head(&["ip", "route"], Refused),
            Head(&["ipv6"], Refused),
            Head(&["ip", "routing"], Ignored),
        ],
        b's' => &[
            Head(&["interface"], Router(RouterForm::Interface)),
            Head(&["ipv6"], Refused),
            Head(&["ip", "ssh"], Ignored),
            Head(&["ip", "subnet-zero"], Ignored),
            Head(&["ip", "source-route"], Ignored),
        ],
        b't' => &[
            Head(&["interface"], Router(RouterForm::Interface)),
            Head(&["ipv6"], Refused),
            Head(&["ip", "tcp"], Ignored),
            Head(&["ip", "tftp"], Ignored),
        ],
        b'v' => &[
            Head(&["interface"], Router(RouterForm::Interface)),
            Head(&["ip", "vrf"], Refused),
            Head(&["ipv6"], Refused),
        ],
        _ => &[
            Head(&["interface"], Router(RouterForm::Interface)),
            Head(&["ipv6"], Refused),
        ],
    }
}

/// The heads whose first word begins with this byte, in the order of the definition.
#[tactic(auto, unfolding(cfg_ast::specs::text::Heads::top_heads, cfg_ast::specs::text::Lines::words_of))]
pub(crate) fn begun_by(first: u8, second: u8) -> &'static [Head]
    ensures { rows_of result.now ≡ narrowed 105 1 first second top_heads }
{
    match first {
        b'B' => &[Head(&["Building"], Ignored)],
        b'C' => &[Head(&["Current"], Ignored)],
        b'a' => &[
            Head(&["aaa"], Ignored),
            Head(&["archive"], Ignored),
            Head(&["access-list"], Ignored),
            Head(&["alias"], Ignored),
        ],
        b'b' => &[
            Head(&["banner"], Refused),
            Head(&["boot-start-marker"], Ignored),
            Head(&["boot-end-marker"], Ignored),
            Head(&["boot"], Ignored),
        ],
        b'c' => &[
            Head(&["clock"], Ignored),
            Head(&["control-plane"], Ignored),
            Head(&["cdp"], Ignored),
            Head(&["crypto"], Ignored),
            Head(&["class-map"], Ignored),
        ],
        b'd' => &[Head(&["diagnostic"], Ignored)],
        b'e' => &[
            Head(&["end"], Router(RouterForm::End)),
            Head(&["enable"], Ignored),
            Head(&["exception"], Ignored),
            Head(&["errdisable"], Ignored),
        ],
        b'f' => &[Head(&["file"], Ignored)],
        b'h' => &[
            Head(&["hostname"], Router(RouterForm::Hostname)),
            Head(&["hw-module"], Ignored),
        ],
        b'i' => ip_heads(second),
        b'l' => &[
            Head(&["line"], Ignored),
            Head(&["logging"], Ignored),
            Head(&["lldp"], Ignored),
            Head(&["license"], Ignored),
            Head(&["login"], Ignored),
        ],
        b'm' => &[
            Head(&["mpls"], Refused),
            Head(&["mmi"], Ignored),
            Head(&["multilink"], Ignored),
            Head(&["memory-size"], Ignored),
        ],
        b'n' => &[
            Head(&["no", "ip", "routing"], Refused),
            Head(&["no", "ip", "cef"], Ignored),
            Head(&["no", "ipv6", "cef"], Ignored),
            Head(&["no", "ip", "domain"], Ignored),
            Head(&["no", "ip", "domain-lookup"], Ignored),
            Head(&["no", "ip", "http"], Ignored),
            Head(&["no", "ip", "dhcp"], Ignored),
            Head(&["no", "ip", "bootp"], Ignored),
            Head(&["no", "ip", "source-route"], Ignored),
            Head(&["no", "service"], Ignored),
            Head(&["no", "aaa"], Ignored),
            Head(&["no", "logging"], Ignored),
            Head(&["ntp"], Ignored),
            Head(&["no", "cdp"], Ignored),
        ],
        b'p' => &[
            Head(&["privilege"], Ignored),
            Head(&["platform"], Ignored),
            Head(&["policy-map"], Ignored),
        ],
        b'r' => &[
            Head(&["router", "bgp"], Router(RouterForm::Bgp)),
            Head(&["router", "ospf"], Router(RouterForm::Ospf)),
            Head(&["route-map"], Policy(PolicyForm::MapHead)),
            Head(&["router"], Refused),
            Head(&["redundancy"], Ignored),
            Head(&["radius-server"], Ignored),
            Head(&["radius"], Ignored),
        ],
        b's' => &[
            Head(&["service"], Ignored),
            Head(&["snmp-server"], Ignored),
            Head(&["spanning-tree"], Ignored),
            Head(&["scheduler"], Ignored),
            Head(&["security"], Ignored),
        ],
        b't' => &[
            Head(&["tacacs-server"], Ignored),
            Head(&["tacacs"], Ignored),
        ],
        b'u' => &[Head(&["username"], Ignored)],
        b'v' => &[
            Head(&["vrf"], Refused),
            Head(&["version"], Ignored),
            Head(&["vtp"], Ignored),
            Head(&["vlan"], Ignored),
        ],
        _ => &[],
    }
}
