//! Why a text is no solution.

ghost use Rattle.std.specs.Prelude.{◌≡◌};
ghost use Rattle.solution_text.specs.declared.refusal.SolRefusal.TheVariants as sol_refusal;

use base_kit::NoMemory;
use std::alloc::AllocError;
use thiserror::Error;

/// What is wrong with a solution, in the order in which faults of one line are tried. `Missing` is
/// tried behind the last line.
#[derive(Clone, Copy, Debug, PartialEq, Eq)]
pub enum SolKind {
    /// The line is of none of the forms.
    BadForm,
    /// No router has that name.
    UnknownRouter,
    /// An earlier line names that router.
    Repeated,
    /// A router has no line.
    Missing,
    /// The label is a route of the other protocol.
    WrongProtocol,
}

/// Why a text is no solution.
#[derive(Debug, Drop, Error)]
pub enum SolRefusal {
    /// The line that decides, and what is wrong with it.
    #[error("line {line}: {kind:?}")]
    At { line: u32, kind: SolKind },
    /// Memory ran out.
    #[error("out of memory")]
    Memory,
}

impl From<NoMemory> for SolRefusal {
    ghost from_gives = { λ _ e. e ≡ sol_refusal.Memory };

    fn from(_: NoMemory) -> Self {
        SolRefusal::Memory
    }
}

impl From<AllocError> for SolRefusal {
    ghost from_gives = { λ _ e. e ≡ sol_refusal.Memory };

    fn from(_: AllocError) -> Self {
        SolRefusal::Memory
    }
}
