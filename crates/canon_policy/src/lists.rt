//! Canonical lists of a session, or why there are none.

ghost use Rattle.std.specs.Prelude.{◌≡◌};
ghost use Rattle.canon_policy.specs.declared.lists.CanonRefusal.TheVariants as canon_refusal;

use base_kit::NoMemory;
use route_maps::Plain;
use std::alloc::AllocError;
use thiserror::Error;

/// The canonical lists of a function of a session. Communities are sent.
#[derive(Drop)]
pub struct CanonEdge {
    /// The exporter's map.
    pub out: Plain,
    /// The importer's map.
    pub into: Plain,
}

/// Why there are no canonical lists to give.
#[derive(Clone, Copy, Debug, PartialEq, Eq, Error)]
pub enum CanonRefusal {
    /// The function has none: it depends on communities that no line names, or an entry would name more
    /// than 32 communities, or a list would have more than 65,535 entries.
    #[error("the function has no canonical lists")]
    NoCanon,
    /// Memory ran out.
    #[error("out of memory")]
    Memory,
}

impl From<NoMemory> for CanonRefusal {
    ghost from_gives = { λ _ e. e ≡ canon_refusal.Memory };

    fn from(_: NoMemory) -> Self {
        CanonRefusal::Memory
    }
}

impl From<AllocError> for CanonRefusal {
    ghost from_gives = { λ _ e. e ≡ canon_refusal.Memory };

    fn from(_: AllocError) -> Self {
        CanonRefusal::Memory
    }
}
