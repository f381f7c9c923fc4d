//! What a call has come to, before it is reported.

/// What a call has come to, before it is reported.
#[derive(Drop)]
pub enum Finding {
    /// The whole output, and whether every answer in it is good.
    Output { bytes: Vec<u8>, all: bool },
    /// Why the input is refused.
    Refusal(Vec<u8>),
    /// The words are of no form.
    Misuse,
    /// The first file could not be read.
    ReadFailed,
    /// The second file could not be read.
    SecondFailed,
    /// Memory ran out.
    NoMemory,
}
