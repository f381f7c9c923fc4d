//! The heads of lines of a BGP process.

ghost use Rattle.std.specs.Prelude.{◌≡◌};
ghost use Rattle.cfg_ast.specs.text.Heads.{bgp_heads};
ghost use Rattle.cfg_words.specs.Rows.{rows_of, begun_by, going_on, narrowed};

use crate::heads::Head;
use cfg_ast::HeadClass::{Ignored, Refused, Router};
use cfg_ast::RouterForm;

/// The heads that begin with `n` and whose third word, if they have one, begins with this byte.
#[tactic(auto, unfolding(cfg_ast::specs::text::Heads::bgp_heads, cfg_ast::specs::text::Lines::words_of))]
fn peer_heads(third: u8) -> &'static [Head]
    ensures { rows_of result.now ≡ going_on 2 third (begun_by 110 bgp_heads) }
{
    match third {
        b'a' => &[
            Head(&["network"], Router(RouterForm::Network)),
            Head(&["no", "bgp"], Refused),
            Head(&["neighbor"], Refused),
            Head(&["no", "synchronization"], Ignored),
            Head(&["no", "auto-summary"], Ignored),
            Head(&["neighbor", "A", "activate"], Ignored),
            Head(&["neighbor", "A", "advertisement-interval"], Ignored),
        ],
        b'd' => &[
            Head(&["network"], Router(RouterForm::Network)),
            Head(&["no", "bgp"], Refused),
            Head(&["neighbor"], Refused),
            Head(&["no", "synchronization"], Ignored),
            Head(&["no", "auto-summary"], Ignored),
            Head(&["neighbor", "A", "description"], Ignored),
        ],
        b'f' => &[
            Head(&["network"], Router(RouterForm::Network)),
            Head(&["no", "bgp"], Refused),
            Head(&["neighbor"], Refused),
            Head(&["no", "synchronization"], Ignored),
            Head(&["no", "auto-summary"], Ignored),
            Head(&["neighbor", "A", "fall-over"], Ignored),
        ],
        b'l' => &[
            Head(&["network"], Router(RouterForm::Network)),
            Head(&["no", "bgp"], Refused),
            Head(&["neighbor"], Refused),
            Head(&["no", "bgp", "log-neighbor-changes"], Ignored),
            Head(&["no", "synchronization"], Ignored),
            Head(&["no", "auto-summary"], Ignored),
        ],
        b'n' => &[
            Head(&["network"], Router(RouterForm::Network)),
            Head(&["no", "bgp"], Refused),
            Head(&["neighbor"], Refused),
            Head(&["no", "synchronization"], Ignored),
            Head(&["no", "auto-summary"], Ignored),
            Head(&["neighbor", "A", "next-hop-self"], Ignored),
        ],
        b'p' => &[
            Head(&["network"], Router(RouterForm::Network)),
            Head(
                &["neighbor", "A", "prefix-list"],
                Router(RouterForm::PeerList),
            ),
            Head(&["no", "bgp"], Refused),
            Head(&["neighbor"], Refused),
            Head(&["no", "synchronization"], Ignored),
            Head(&["no", "auto-summary"], Ignored),
            Head(&["neighbor", "A", "password"], Ignored),
        ],
        b'r' => &[
            Head(&["network"], Router(RouterForm::Network)),
            Head(
                &["neighbor", "A", "remote-as"],
                Router(RouterForm::RemoteAs),
            ),
            Head(&["neighbor", "A", "route-map"], Router(RouterForm::PeerMap)),
            Head(&["no", "bgp"], Refused),
            Head(&["neighbor"], Refused),
            Head(&["no", "synchronization"], Ignored),
            Head(&["no", "auto-summary"], Ignored),
        ],
        b's' => &[
            Head(&["network"], Router(RouterForm::Network)),
            Head(&["neighbor", "A", "shutdown"], Router(RouterForm::PeerShut)),
            Head(
                &["neighbor", "A", "send-community"],
                Router(RouterForm::PeerSends),
            ),
            Head(&["no", "bgp"], Refused),
            Head(&["neighbor"], Refused),
            Head(&["no", "synchronization"], Ignored),
            Head(&["no", "auto-summary"], Ignored),
            Head(&["neighbor", "A", "soft-reconfiguration"], Ignored),
            Head(&["neighbor", "A", "send-community", "extended"], Ignored),
        ],
        b't' => &[
            Head(&["network"], Router(RouterForm::Network)),
            Head(&["no", "bgp"], Refused),
            Head(&["neighbor"], Refused),
            Head(&["no", "synchronization"], Ignored),
            Head(&["no", "auto-summary"], Ignored),
            Head(&["neighbor", "A", "timers"], Ignored),
            Head(&["neighbor", "A", "transport"], Ignored),
        ],
        b'v' => &[
            Head(&["network"], Router(RouterForm::Network)),
            Head(&["no", "bgp"], Refused),
            Head(&["neighbor"], Refused),
            Head(&["no", "synchronization"], Ignored),
            Head(&["no", "auto-summary"], Ignored),
            Head(&["neighbor", "A", "version"], Ignored),
        ],
        _ => &[
            Head(&["network"], Router(RouterForm::Network)),
            Head(&["no", "bgp"], Refused),
            Head(&["neighbor"], Refused),
            Head(&["no", "synchronization"], Ignored),
            Head(&["no", "auto-summary"], Ignored),
        ],
    }
}

/// The heads whose first word begins with this byte, in the order of the definition.
#[tactic(auto, unfolding(cfg_ast::specs::text::Heads::bgp_heads, cfg_ast::specs::text::Lines::words_of))]
pub(crate) fn begun_by(first: u8, third: u8) -> &'static [Head]
    ensures { rows_of result.now ≡ narrowed 110 2 first third bgp_heads }
{
    match first {
        b'a' => &[
            Head(&["aggregate-address"], Refused),
            Head(&["address-family"], Refused),
            Head(&["auto-summary"], Refused),
        ],
        b'b' => &[
            Head(
                &["bgp", "default", "local-preference"],
                Router(RouterForm::Base),
            ),
            Head(&["bgp"], Refused),
            Head(&["bgp", "log-neighbor-changes"], Ignored),
            Head(&["bgp", "router-id"], Ignored),
            Head(&["bgp", "graceful-restart"], Ignored),
        ],
        b'd' => &[
            Head(&["distance"], Refused),
            Head(&["default-information"], Refused),
            Head(&["default-metric"], Refused),
            Head(&["distribute-list"], Refused),
        ],
        b'm' => &[Head(&["maximum-paths"], Refused)],
        b'n' => peer_heads(third),
        b'r' => &[Head(&["redistribute"], Refused)],
        b's' => &[Head(&["synchronization"], Refused)],
        b't' => &[Head(&["table-map"], Refused), Head(&["timers"], Ignored)],
        _ => &[],
    }
}
