//! The place of a mark in a word, and what stands around it.

ghost use Rattle.std.specs.Prelude.{◌≡◌, ◌≤◌, ◌+◌, ◌==◌, length, drop};
ghost use Rattle.std.specs.List.{list_any, position_or_len};

/// The place of the first such byte, or the length.
pub fn place_of(word: &[u8], mark: u8) -> usize
    ensures value { result ≡ position_or_len (λ b. b == mark) word.now }
    ensures bound { result ≤ length word.now }
{
    for (i, b) in word.iter().enumerate() {
        if *b == mark {
            return i;
        }
    }
    word.len()
}

/// Whether there is such a byte.
pub fn has(word: &[u8], mark: u8) -> bool
    ensures { result ≡ list_any (λ b. b == mark) word.now }
{
    word.iter().any(|b| *b == mark)
}

/// What stands behind a place, which may be the end.
pub fn behind(word: &[u8], place: usize) -> &[u8]
    requires { place ≤ length word.now }
    ensures { result.now ≡ drop (place + 1) word.now }
{
    if place < word.len() {
        &word[place + 1..]
    } else {
        &[]
    }
}
