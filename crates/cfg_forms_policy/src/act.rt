//! The words `permit` and `deny`.

ghost use Rattle.std.specs.Prelude.{◌≡◌};
ghost use Rattle.cfg_ast.specs.text.PolicyForms.{is_permit};

/// Reads `permit` as true and `deny` as false.
#[tactic(auto, unfolding(cfg_ast::specs::text::PolicyForms::is_permit))]
pub(crate) fn is_permit(word: &[u8]) -> Option<bool>
    ensures { result ≡ is_permit word.now }
{
    if word == b"permit".as_slice() {
        return Some(true);
    }
    if word == b"deny".as_slice() {
        return Some(false);
    }
    None
}
