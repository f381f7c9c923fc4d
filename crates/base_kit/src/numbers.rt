//! Numbers and addresses, read by their grammar.

ghost use Rattle.std.specs.Prelude.{◌≡◌, ◌∷◌, [], ◌≤◌, ◌<◌, ◌^◌, MatchOption};
ghost use Rattle.base_kit.specs.Numbers.{number_up_to, number_of, parts_at_points, address_of};

// Reads a number of at most `most`.
fn read_up_to(word: &[u8], most: u32) -> Option<u32>
    ensures { result ≡ number_up_to most word.now }
{
    if word.is_empty() || (word.len() > 1 && word[0] == b'0') {
        return None;
    }
    let mut value: u32 = 0;
    for b in word {
        if !b.is_ascii_digit() {
            return None;
        }
        let next = u64::from(value) * 10 + u64::from(*b - b'0');
        if next > u64::from(most) {
            return None;
        }
        value = next as u32;
    }
    Some(value)
}

/// Reads a number: `0`, or digits without a leading zero.
pub fn read_number(word: &[u8]) -> Option<u32>
    ensures { result ≡ number_of word.now }
{
    read_up_to(word, u32::MAX)
}

// The part before the first point, and what is behind it.
fn cut_at_point(word: &[u8]) -> Option<(&[u8], &[u8])>
    ensures { MatchOption result (parts_at_points word.now ≡ word.now ∷ []) (λ cut. parts_at_points word.now ≡ cut.0.now ∷ parts_at_points cut.1.now) }
{
    for (i, b) in word.iter().enumerate() {
        if *b == b'.' {
            return Some((&word[..i], &word[i + 1..]));
        }
    }
    None
}

/// Reads an address: four numbers up to 255 joined by points.
pub fn read_address(word: &[u8]) -> Option<u32>
    ensures { result ≡ address_of word.now }
{
    let (a, rest) = cut_at_point(word)?;
    let (b, rest) = cut_at_point(rest)?;
    let (c, d) = cut_at_point(rest)?;
    match cut_at_point(d) {
        Some(_) => return None,
        None => {}
    }
    let a = read_up_to(a, 255)?;
    let b = read_up_to(b, 255)?;
    let c = read_up_to(c, 255)?;
    let d = read_up_to(d, 255)?;
    Some(((a * 256 + b) * 256 + c) * 256 + d)
}
