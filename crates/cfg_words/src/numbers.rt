//! Numbers and addresses in the words of a line.

ghost use Rattle.std.specs.Prelude.{◌≡◌, ◌≤◌, IfSome};
ghost use Rattle.cfg_ast.specs.text.Words.{number_word, number_between, as_number_word, address_word};

/// Reads a number: `0`, or digits without a leading zero, up to 4294967295.
#[tactic(auto, unfolding(cfg_ast::specs::text::Words::number_word))]
pub fn read_number(word: &[u8]) -> Option<u32>
    ensures { result ≡ number_word word.now }
{
    base_kit::read_number(word)
}

/// Reads a number of the range from `low` to `high`, both included.
#[tactic(auto, unfolding(cfg_ast::specs::text::Words::number_between))]
pub fn read_between(word: &[u8], low: u32, high: u32) -> Option<u32>
    ensures value { result ≡ number_between low high word.now }
    ensures bound { IfSome result (λ n. (low ≤ n) × (n ≤ high)) }
{
    let n = read_number(word)?;
    if low <= n && n <= high { Some(n) } else { None }
}

/// Reads an AS number, which is not 0.
#[tactic(auto, unfolding(cfg_ast::specs::text::Words::as_number_word))]
pub fn read_as_number(word: &[u8]) -> Option<u32>
    ensures { result ≡ as_number_word word.now }
{
    read_between(word, 1, u32::MAX)
}

/// Reads an address: four numbers from 0 to 255 joined by points.
#[tactic(auto, unfolding(cfg_ast::specs::text::Words::address_word))]
pub fn read_address(word: &[u8]) -> Option<u32>
    ensures { result ≡ address_word word.now }
{
    base_kit::read_address(word)
}
