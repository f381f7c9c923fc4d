//! How a call ended, and its exit status.

ghost use Rattle.std.specs.Prelude.{◌≡◌};
ghost use Rattle.answer_kit.specs.Outcome.{code_of};

/// How a call ended.
#[derive(Clone, Copy, Debug, PartialEq, Eq)]
pub enum Status {
    /// The command's whole output was written.
    Done,
    /// The input was refused, by the line on `err`.
    Refused,
    /// The words name no command.
    Usage,
    /// A file that the command reads could not be read.
    ReadFault,
    /// An output could not be written.
    WriteFault,
    /// Memory ran out.
    Memory,
    /// The labels of a solution are not stable.
    NotStable,
}

impl Status {
    /// The exit status that stands for it.
    pub fn code(&self) -> u8
        ensures { result ≡ code_of self.now }
    {
        match self {
            Status::Done => 0,
            Status::Refused => 1,
            Status::Usage => 2,
            Status::ReadFault => 3,
            Status::WriteFault => 4,
            Status::Memory => 5,
            Status::NotStable => 6,
        }
    }
}
