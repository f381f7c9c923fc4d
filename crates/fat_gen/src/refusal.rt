//! Why no fat tree is written.

ghost use Rattle.std.specs.Prelude.{◌≡◌};
ghost use Rattle.fat_gen.specs.declared.refusal.FatRefusal.TheVariants as fat_refusal;

use std::alloc::AllocError;
use thiserror::Error;

/// Why no fat tree is written.
#[derive(Debug, Drop, Error)]
pub enum FatRefusal {
    /// The size is odd, or not from 4 to 20.
    #[error("the size is not an even number from 4 to 20")]
    BadSize,
    /// Memory ran out.
    #[error("out of memory")]
    Memory,
}

impl From<AllocError> for FatRefusal {
    ghost from_gives = { λ _ e. e ≡ fat_refusal.Memory };

    fn from(_: AllocError) -> Self {
        FatRefusal::Memory
    }
}
