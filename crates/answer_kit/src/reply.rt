//! What a command has come to, before it is reported.

ghost use Rattle.std.specs.Prelude.{◌≡◌, IfOk, OnErr, string_bytes};
ghost use Rattle.answer_kit.specs.Replies.{IsRefusalOf};

use std::alloc::AllocError;

/// What a command has come to, before it is reported.
#[derive(Drop)]
pub enum Reply {
    /// The whole output.
    Output(Vec<u8>),
    /// Why the input is refused.
    Refusal(Vec<u8>),
    /// Which router is not stable, and why.
    NotStable(Vec<u8>),
    /// The words name no command.
    Misuse,
    /// The first file could not be read.
    ReadFailed,
    /// The second file could not be read.
    SecondFailed,
    /// Memory ran out.
    NoMemory,
}

/// The refusal for this reason, or out of memory if the reason could not be written.
pub fn refuse(reason: Result<String, AllocError>) -> Reply
    ensures told { IfOk reason (λ text. IsRefusalOf (string_bytes text) result) }
    ensures memory { OnErr reason (result ≡ Reply.NoMemory) }
{
    match reason {
        Ok(text) => Reply::Refusal(text.into_bytes()),
        Err(_) => Reply::NoMemory,
    }
}
