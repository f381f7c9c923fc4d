//! The names of routers and interfaces.

ghost use Rattle.std.specs.Prelude.{◌≡◌};
ghost use Rattle.std.specs.List.{list_all, list_any};
ghost use Rattle.std.specs.Char.{is_ascii_alphabetic, is_ascii_digit};
ghost use Rattle.cfg_ast.specs.text.Words.{is_name_long, begins_with, is_letter_or_digit, is_router_byte, is_router_name, is_interface_byte, is_interface_name};

fn is_name_long(word: &[u8]) -> bool
    ensures { result ≡ is_name_long word.now }
{
    1 <= word.len() && word.len() <= 63
}

fn is_letter_or_digit(b: u8) -> bool
    ensures { result ≡ is_letter_or_digit b }
{
    b.is_ascii_alphabetic() || b.is_ascii_digit()
}

fn is_router_byte(b: u8) -> bool
    ensures { result ≡ is_router_byte b }
{
    is_letter_or_digit(b) || b == b'-' || b == b'_' || b == b'.'
}

fn begins_with_letter_or_digit(word: &[u8]) -> bool
    ensures { result ≡ begins_with is_letter_or_digit word.now }
{
    match word {
        [] => false,
        [first, ..] => is_letter_or_digit(*first),
    }
}

fn are_router_bytes(word: &[u8]) -> bool
    ensures { result ≡ list_all is_router_byte word.now }
{
    word.iter().all(|b| is_router_byte(*b))
}

/// Whether the word may name a router: 1 to 63 letters, digits, `-`, `_` and `.`, of which the first
/// is a letter or a digit.
#[tactic(auto, unfolding(cfg_ast::specs::text::Words::is_router_name))]
pub fn is_router_name(word: &[u8]) -> bool
    ensures { result ≡ is_router_name word.now }
{
    is_name_long(word) && begins_with_letter_or_digit(word) && are_router_bytes(word)
}

fn is_interface_byte(b: u8) -> bool
    ensures { result ≡ is_interface_byte b }
{
    is_letter_or_digit(b) || b == b'/' || b == b'.' || b == b':' || b == b'-'
}

fn begins_with_letter(word: &[u8]) -> bool
    ensures { result ≡ begins_with is_ascii_alphabetic word.now }
{
    match word {
        [] => false,
        [first, ..] => first.is_ascii_alphabetic(),
    }
}

fn has_digit(word: &[u8]) -> bool
    ensures { result ≡ list_any is_ascii_digit word.now }
{
    word.iter().any(|b| b.is_ascii_digit())
}

fn are_interface_bytes(word: &[u8]) -> bool
    ensures { result ≡ list_all is_interface_byte word.now }
{
    word.iter().all(|b| is_interface_byte(*b))
}

/// Whether the word may name an interface: 1 to 63 letters, digits, `/`, `.`, `:` and `-`, of which
/// the first is a letter and one is a digit.
#[tactic(auto, unfolding(cfg_ast::specs::text::Words::is_interface_name))]
pub fn is_interface_name(word: &[u8]) -> bool
    ensures { result ≡ is_interface_name word.now }
{
    is_name_long(word) && begins_with_letter(word) && has_digit(word) && are_interface_bytes(word)
}
