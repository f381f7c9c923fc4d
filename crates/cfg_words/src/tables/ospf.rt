//! The heads of lines of an OSPF process.

ghost use Rattle.std.specs.Prelude.{◌≡◌};
ghost use Rattle.cfg_ast.specs.text.Heads.{ospf_heads};
ghost use Rattle.cfg_words.specs.Rows.{rows_of, begun_by};

use crate::heads::Head;
use cfg_ast::HeadClass::{Ignored, Refused, Router};
use cfg_ast::RouterForm;

/// The heads whose first word begins with this byte, in the order of the definition.
#[tactic(auto, unfolding(cfg_ast::specs::text::Heads::ospf_heads, cfg_ast::specs::text::Lines::words_of))]
pub(crate) fn begun_by(first: u8) -> &'static [Head]
    ensures { rows_of result.now ≡ begun_by first ospf_heads }
{
    match first {
        b'a' => &[Head(&["auto-cost"], Refused), Head(&["area"], Refused)],
        b'd' => &[
            Head(&["default-information"], Refused),
            Head(&["default-metric"], Refused),
            Head(&["distance"], Refused),
            Head(&["distribute-list"], Refused),
        ],
        b'l' => &[Head(&["log-adjacency-changes"], Ignored)],
        b'm' => &[
            Head(&["max-metric"], Refused),
            Head(&["maximum-paths"], Refused),
        ],
        b'n' => &[
            Head(&["network"], Router(RouterForm::Area)),
            Head(&["no", "passive-interface"], Router(RouterForm::NotPassive)),
            Head(&["neighbor"], Refused),
            Head(&["no", "log-adjacency-changes"], Ignored),
        ],
        b'p' => &[Head(&["passive-interface"], Router(RouterForm::Passive))],
        b'r' => &[
            Head(&["redistribute"], Refused),
            Head(&["router-id"], Ignored),
        ],
        b's' => &[Head(&["summary-address"], Refused)],
        b't' => &[Head(&["timers"], Ignored)],
        _ => &[],
    }
}
