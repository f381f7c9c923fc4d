//! The second file of a command, read within a limit.

ghost use Rattle.std.specs.Prelude.{◌≡◌, ◌≤◌, ℕ, List, length, IfOk, IfErr, IfSome};
ghost use Rattle.io_kit.specs.Ends.{Rose};
ghost use Rattle.answer_kit.specs.Replies.{Answers};
ghost use Rattle.answer_kit.specs.SecondFiles.{IsOfSecond, AllowsNoText};

use crate::reply::{Reply, refuse};
use io_kit::{InFault, Source, read_all};
use std::alloc::Global;

/// The bytes of the second file, at most `limit`, or the reply to report if there are none.
pub fn read_second<S: Source>(
    alloc: Global,
    name: &str,
    limit: usize,
    long: &str,
    files: &mut S,
) -> Result<Vec<u8>, Reply>
    ensures whole { IfOk result (λ bytes. IfSome (S.contents files.old name.now) (λ text. bytes.items ≡ text)) }
    ensures short { IfOk result (λ bytes. length bytes.items ≤ limit) }
    ensures none { IfErr result (λ reply. Answers reply (IsOfSecond limit long.now (S.contents files.old name.now) AllowsNoText) ⊥ (Rose (S.faults files.old name.now) (S.faults files.new name.now))) }
    ensures contents { S.contents files.new ≡ S.contents files.old }
    ensures later { (n : List ℕ) → S.faults files.old n ≤ S.faults files.new n }
{
    match read_all(alloc, files, name, limit) {
        Ok(bytes) => Ok(bytes),
        Err(InFault::TooLong) => Err(refuse(format!(in alloc; "{long}"))),
        Err(InFault::Failed) => Err(Reply::SecondFailed),
        Err(InFault::Memory) => Err(Reply::NoMemory),
    }
}
