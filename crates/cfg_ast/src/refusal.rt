//! The kinds of faults, and the refusals that name them.

ghost use Rattle.std.specs.Prelude.{◌≡◌};
ghost use Rattle.cfg_ast.specs.declared.refusal.FormFault.TheVariants as form_fault;
ghost use Rattle.cfg_ast.specs.declared.refusal.ReadRefusal.TheVariants as read_refusal;

use base_kit::NoMemory;
use thiserror::Error;

/// What is wrong with a text. If a line has several faults of meaning, the kind that comes first here
/// decides. `specs/text/` says which fault of a line as such, or of form, decides.
#[derive(Clone, Copy, Debug, PartialEq, Eq)]
pub enum Kind {
    NotAscii,
    LineTooLong,
    TooManyLines,
    UnknownLine,
    Unsupported,
    BadForm,
    WellKnown,
    Misplaced,
    Repeated,
    NoHostname,
    NoEnd,
    SharedName,
    SharedAs,
    InternalPeer,
    MixedProtocols,
    OtherArea,
    UndefinedMap,
    UndefinedList,
    DeleteListForm,
    SharedAddress,
    OverlappingInterfaces,
    LoopbackMask,
    NoCost,
    TooManyRouters,
    TooManyCommunities,
    TooManyNeighbors,
    TooManyLinks,
    PrependForm,
    PrependIn,
}

/// Something wrong at a line.
#[derive(Clone, Copy, Debug, PartialEq, Eq)]
pub struct Fault {
    pub line: u32,
    pub kind: Kind,
}

/// Why a text is no network, or a network may not be used.
#[derive(Debug, Drop, Error)]
pub enum ReadRefusal {
    /// The line that decides, and what is wrong with it.
    #[error("line {line}: {kind:?}")]
    At { line: u32, kind: Kind },
    /// Memory ran out.
    #[error("out of memory")]
    Memory,
}

impl From<NoMemory> for ReadRefusal {
    ghost from_gives = { λ _ e. e ≡ read_refusal.Memory };

    fn from(_: NoMemory) -> Self {
        ReadRefusal::Memory
    }
}

/// Why a line has no meaning of its own.
#[derive(Debug, Drop, Error)]
pub enum FormFault {
    /// Its head is in no table.
    #[error("unknown line")]
    UnknownLine,
    /// Its head is refused.
    #[error("unsupported line")]
    Unsupported,
    /// Its head is known, and it does not fit its form.
    #[error("bad form")]
    BadForm,
    /// It fits its form, except for a well-known community.
    #[error("well-known community")]
    WellKnown,
    /// Memory ran out.
    #[error("out of memory")]
    Memory,
}

impl From<NoMemory> for FormFault {
    ghost from_gives = { λ _ e. e ≡ form_fault.Memory };

    fn from(_: NoMemory) -> Self {
        FormFault::Memory
    }
}
