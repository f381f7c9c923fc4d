//! Why a text is no certificate.

ghost use Rattle.std.specs.Prelude.{◌≡◌};
ghost use Rattle.cut_certificate.specs.declared.refusal.CutRefusal.TheVariants as refusal;
ghost use Rattle.cut_certificate.specs.declared.refusal.Stop.TheVariants as stop;

use base_kit::NoMemory;
use std::alloc::AllocError;
use thiserror::Error;

/// What is wrong with a certificate, in the order in which faults of one line are tried. `NoEnd` is
/// tried behind the last line.
#[derive(Clone, Copy, Debug, PartialEq, Eq)]
pub enum CutKind {
    /// The line is of none of the forms, or out of its place.
    BadForm,
    /// No router has that name.
    UnknownRouter,
    /// The router imports over no link of that number.
    NoEdge,
    /// There is no block of that number so far.
    NoBlock,
    /// The block is to be divided by itself.
    SameBlock,
    /// All members of the block would stay, or all would go.
    NothingSplit,
    /// The line is not that of the next group, or the end comes before all groups.
    WrongGroups,
    /// The groups are no admissible partition.
    NotAdmissible,
    /// The line `end` is missing.
    NoEnd,
}

/// Why a text is no certificate that is accepted.
#[derive(Debug, Drop, Error)]
pub enum CutRefusal {
    /// The line that decides, and what is wrong with it.
    #[error("line {line}: {why:?}")]
    At { line: u32, why: CutKind },
    /// Memory ran out.
    #[error("out of memory")]
    Memory,
}

impl From<NoMemory> for CutRefusal {
    ghost from_gives = { λ _ e. e ≡ refusal.Memory };

    fn from(_: NoMemory) -> Self {
        CutRefusal::Memory
    }
}

impl From<AllocError> for CutRefusal {
    ghost from_gives = { λ _ e. e ≡ refusal.Memory };

    fn from(_: AllocError) -> Self {
        CutRefusal::Memory
    }
}

/// Why a line cannot follow those before it.
#[derive(Debug, Drop, Error)]
pub(crate) enum Stop {
    #[error("{0:?}")]
    Fault(CutKind),
    #[error("out of memory")]
    Memory,
}

impl From<CutKind> for Stop {
    ghost from_gives = { λ kind e. e ≡ stop.Fault kind };

    fn from(kind: CutKind) -> Self {
        Stop::Fault(kind)
    }
}

impl From<NoMemory> for Stop {
    ghost from_gives = { λ _ e. e ≡ stop.Memory };

    fn from(_: NoMemory) -> Self {
        Stop::Memory
    }
}
