//! Why a network is not printed.

ghost use Rattle.std.specs.Prelude.{◌≡◌};
ghost use Rattle.cfg_print.specs.declared.refusal.PrintRefusal.TheVariants as print_refusal;

use std::alloc::AllocError;
use thiserror::Error;

/// Why a network is not printed.
#[derive(Debug, Drop, Error)]
pub enum PrintRefusal {
    /// The text has more than 16,777,216 bytes or 1,000,000 lines.
    #[error("the text is too long")]
    TooLong,
    /// Memory ran out.
    #[error("out of memory")]
    Memory,
}

impl From<AllocError> for PrintRefusal {
    ghost from_gives = { λ _ e. e ≡ print_refusal.Memory };

    fn from(_: AllocError) -> Self {
        PrintRefusal::Memory
    }
}
