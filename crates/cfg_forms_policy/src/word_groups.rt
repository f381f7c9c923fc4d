//! Groups of 1 to 32 words, and the mark behind them.

ghost use Rattle.std.specs.Prelude.{◌≡◌, MatchOption, IfSome, true, false};
ghost use Rattle.std.specs.List.{AllByRecursion};
ghost use Rattle.cfg_ast.specs.text.Lines.{IsWordIn, texts};
ghost use Rattle.cfg_ast.specs.text.PolicyForms.{is_group, has_mark, but_last};

use cfg_ast::Span;
use cfg_words::text;

/// Whether there are 1 to 32 words.
pub(crate) fn is_group(bytes: &[u8], words: &[Span]) -> bool
    ensures { result ≡ is_group (texts bytes.now words.now) }
{
    1 <= words.len() && words.len() <= 32
}

/// The words before a last word that is this mark, if it stands.
#[tactic(auto, using(crate::proofs::LastWord::is_marked_last, crate::proofs::LastWord::texts_but_last, crate::proofs::LastWord::are_words_take))]
pub(crate) fn before_mark<'a>(bytes: &[u8], words: &'a [Span], mark: &[u8]) -> Option<&'a [Span]>
    requires { AllByRecursion (IsWordIn bytes.now) words.now }
    ensures mark { MatchOption result (has_mark mark.now (texts bytes.now words.now) ≡ false) (λ front. has_mark mark.now (texts bytes.now words.now) ≡ true) }
    ensures front { IfSome result (λ front. texts bytes.now front.now ≡ but_last (texts bytes.now words.now)) }
    ensures within { IfSome result (λ front. AllByRecursion (IsWordIn bytes.now) front.now) }
{
    let [front @ .., last] = words else {
        return None;
    };
    if text(bytes, *last) == mark {
        Some(front)
    } else {
        None
    }
}
