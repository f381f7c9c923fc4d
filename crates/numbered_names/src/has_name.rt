//! What has a name.

ghost use Rattle.std.specs.Prelude.{◌≡◌, ℕ, List};

use base_kit::Text;

/// What has a name.
pub trait HasName {
    ghost name: { Self → List ℕ };

    /// The name.
    fn name(&self) -> &str
        ensures { result.now ≡ name self.now };
}

/// A text is its own name.
impl HasName for Text {
    ghost name = { λ text. text };

    fn name(&self) -> &str {
        self.as_str()
    }
}
