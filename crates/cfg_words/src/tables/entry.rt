//! The heads of lines of an entry of a route map.

ghost use Rattle.std.specs.Prelude.{◌≡◌};
ghost use Rattle.cfg_ast.specs.text.Heads.{entry_heads};
ghost use Rattle.cfg_words.specs.Rows.{rows_of, begun_by};

use crate::heads::Head;
use cfg_ast::HeadClass::{Ignored, Policy, Refused};
use cfg_ast::PolicyForm;

/// The heads whose first word begins with this byte, in the order of the definition.
#[tactic(auto, unfolding(cfg_ast::specs::text::Heads::entry_heads, cfg_ast::specs::text::Lines::words_of))]
pub(crate) fn begun_by(first: u8) -> &'static [Head]
    ensures { rows_of result.now ≡ begun_by first entry_heads }
{
    match first {
        b'c' => &[Head(&["continue"], Refused)],
        b'd' => &[Head(&["description"], Ignored)],
        b'm' => &[
            Head(
                &["match", "ip", "address", "prefix-list"],
                Policy(PolicyForm::MatchPrefixes),
            ),
            Head(&["match", "community"], Policy(PolicyForm::MatchComms)),
            Head(&["match"], Refused),
        ],
        b's' => &[
            Head(&["set", "local-preference"], Policy(PolicyForm::Lp)),
            Head(&["set", "community"], Policy(PolicyForm::Comms)),
            Head(&["set", "comm-list"], Policy(PolicyForm::Delete)),
            Head(&["set", "as-path", "prepend"], Policy(PolicyForm::Prepend)),
            Head(&["set"], Refused),
        ],
        _ => &[],
    }
}
