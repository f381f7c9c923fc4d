//! How a call ended, and its exit status.

ghost use Rattle.std.specs.Prelude.{◌≡◌};
ghost use Rattle.endings.specs.Telling.{code_of};

/// How a call ended.
#[derive(Clone, Copy, Debug, PartialEq, Eq)]
pub enum Ending {
    /// The whole output was written, and every answer in it is good.
    Done,
    /// The input was refused, by the line on `err`.
    Refused,
    /// The words are of no form.
    Usage,
    /// A file could not be read.
    ReadFault,
    /// An output could not be written.
    WriteFault,
    /// Memory ran out.
    Memory,
    /// The whole output was written, and some answer in it is not good.
    NotAll,
}

impl Ending {
    /// The exit status that stands for it.
    pub fn code(&self) -> u8
        ensures { result ≡ code_of self.now }
    {
        match self {
            Ending::Done => 0,
            Ending::Refused => 1,
            Ending::Usage => 2,
            Ending::ReadFault => 3,
            Ending::WriteFault => 4,
            Ending::Memory => 5,
            Ending::NotAll => 8,
        }
    }
}
