//! The network of the groups, or why there is none.

ghost use Rattle.std.specs.Prelude.{◌≡◌};
ghost use Rattle.config_emit.specs.declared.emitted.EmitRefusal.TheVariants as emit_refusal;

use base_kit::NoMemory;
use cfg_ast::{Network, Notes};
use thiserror::Error;

/// The network of the groups, and for each of its routers the names of the members of the group.
#[derive(Drop)]
pub struct Emitted {
    pub network: Network,
    pub notes: Notes,
}

/// Why no network is written.
#[derive(Clone, Copy, Debug, PartialEq, Eq, Error)]
pub enum EmitRefusal {
    /// A prefix of the class meets 100.64.0.0/10. The line is that of the address which the first
    /// originator of the least such prefix has in it.
    #[error("line {0}: a prefix of the class meets the addresses of the links")]
    PoolOverlap(u32),
    /// Memory ran out.
    #[error("out of memory")]
    Memory,
}

impl From<NoMemory> for EmitRefusal {
    ghost from_gives = { λ _ e. e ≡ emit_refusal.Memory };

    fn from(_: NoMemory) -> Self {
        EmitRefusal::Memory
    }
}
