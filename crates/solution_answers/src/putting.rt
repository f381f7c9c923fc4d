//! Bytes at the end of an output.

ghost use Rattle.std.specs.Prelude.{◌≡◌, ◌++◌, MatchResult};

use base_kit::NoMemory;

/// Appends bytes.
///
/// # Errors
/// Out of memory: the output stays as it was.
pub fn put(bytes: &mut Vec<u8>, piece: &[u8]) -> Result<(), NoMemory>
    ensures { MatchResult result (λ _. bytes.new.items ≡ bytes.old.items ++ piece.now) (λ _. bytes.new.items ≡ bytes.old.items) }
{
    bytes.extend_from_slice(piece)?;
    Ok(())
}
