//! Files in memory.

ghost use Rattle.std.specs.Prelude.{◌≡◌, ◌++◌, length, take, drop, Some, None, MatchOption, min};
ghost use Rattle.io_kit.specs.Files.{contents_of, bytes_of};

use base_kit::{List, Text};

/// A file in memory.
#[derive(Drop)]
pub struct MemFile {
    pub name: Text,
    pub bytes: List<u8>,
}

/// The place of the first file of a name.
pub fn place_of(files: &[MemFile], name: &str) -> Option<usize>
    ensures { MatchOption result (contents_of files.now name.now ≡ None) (λ i. contents_of files.now name.now ≡ Some (bytes_of files.now (Some i))) }
{
    for (i, file) in files.iter().enumerate() {
        if file.name.as_str() == name {
            return Some(i);
        }
    }
    None
}

/// What the file at a place holds; nothing past the end, and nothing without a place.
pub fn file_bytes(files: &[MemFile], place: Option<usize>) -> &[u8]
    ensures { result.now ≡ bytes_of files.now place }
{
    match place {
        Some(i) => match files.get(i) {
            Some(file) => file.bytes.as_slice(),
            None => &[],
        },
        None => &[],
    }
}

/// Moves as much of the front as fits into the buffer.
pub fn copy_front(left: &[u8], buf: &mut [u8]) -> usize
    ensures count { result ≡ min (length left.now) (length buf.old) }
    ensures moved { left.now ≡ take result buf.new ++ drop result left.now }
{
    let count = left.len().min(buf.len());
    buf[..count].copy_from_slice(&left[..count]);
    count
}
