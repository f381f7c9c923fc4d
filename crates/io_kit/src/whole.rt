//! Whole contents, read within a limit and put piece by piece.

ghost use Rattle.std.specs.Prelude.{◌≡◌, ◌≤◌, ◌<◌, ℕ, List, length, Result, Ok, Err, IfOk, IfSome, OnOk, OnErr, IsErrOf};
ghost use Rattle.io_kit.specs.Ends.{Rose, Took, TookPart};

use crate::{Failed, Sink, Source};
use std::alloc::{AllocError, Global};
use thiserror::Error;

/// Why a whole content is not there.
#[derive(Clone, Copy, Debug, Error, PartialEq, Eq)]
pub enum InFault {
    /// The source failed.
    #[error("the source failed")]
    Failed,
    /// There are more bytes than the limit.
    #[error("more bytes than the limit")]
    TooLong,
    /// Memory ran out.
    #[error("out of memory")]
    Memory,
}

/// Reads the whole content of a name. The answer is `TooLong` exactly if the content has more than
/// `limit` bytes, and `Failed` only if the count of faults of that name rose.
#[tactic(auto, using(crate::proofs::Rises::rose_earlier))]
pub fn read_all<S: Source>(
    alloc: Global,
    s: &mut S,
    name: &str,
    limit: usize,
) -> Result<Vec<u8>, InFault>
    ensures contents { S.contents s.new ≡ S.contents s.old }
    ensures later { (n : List ℕ) → S.faults s.old n ≤ S.faults s.new n }
    ensures whole { IfOk result (λ bytes. IfSome (S.contents s.old name.now) (λ c. bytes.items ≡ c)) }
    ensures short { IfOk result (λ bytes. length bytes.items ≤ limit) }
    ensures too_long { IsErrOf result InFault.TooLong → IfSome (S.contents s.old name.now) (λ c. limit < length c) }
    ensures failed { IsErrOf result InFault.Failed → Rose (S.faults s.old name.now) (S.faults s.new name.now) }
{
    let mut bytes = Vec::new(alloc);
    if s.begin(name).is_err() {
        return Err(InFault::Failed);
    }
    let mut buf = [0u8; 4096];
    loop {
        match s.read(&mut buf) {
            Err(Failed) => return Err(InFault::Failed),
            Ok(0) => return Ok(bytes),
            Ok(count) => {
                if count > limit - bytes.len() {
                    return Err(InFault::TooLong);
                }
                if bytes.extend_from_slice(&buf[..count]).is_err() {
                    return Err(InFault::Memory);
                }
            }
        }
    }
}

/// Puts all bytes, piece by piece. Where the sink fails, it took a first part of them.
#[tactic(auto, using(crate::proofs::Rises::rose_earlier))]
pub fn put_all<K: Sink>(k: &mut K, bytes: &[u8]) -> Result<(), Failed>
    ensures later { K.faults k.old ≤ K.faults k.new }
    ensures all { OnOk result (Took (K.taken k.old) (K.taken k.new) bytes.now) }
    ensures part { TookPart (K.taken k.old) (K.taken k.new) bytes.now }
    ensures cause { OnErr result (Rose (K.faults k.old) (K.faults k.new)) }
{
    let mut done = 0;
    while done < bytes.len() {
        let count = k.write(&bytes[done..])?;
        done += count;
    }
    Ok(())
}
