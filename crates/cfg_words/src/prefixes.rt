//! Prefixes of an address and a length.

ghost use Rattle.std.specs.Prelude.{◌≡◌, ◌≤◌};
ghost use Rattle.cfg_ast.specs.text.Words.{bits_behind, cut_to, exact_prefix};

use base_kit::Prefix;

fn bits_behind(len: u8, addr: u32) -> u32
    requires { len ≤ 32 }
    ensures value { result ≡ bits_behind len addr }
    ensures bound { result ≤ addr }
{
    (u64::from(addr) % (1u64 << (32 - len))) as u32
}

/// The prefix of that length that has the address: the bits behind the length are cleared.
pub fn cut_to(len: u8, addr: u32) -> Prefix
    requires { len ≤ 32 }
    ensures { result ≡ cut_to len addr }
{
    Prefix::new(addr - bits_behind(len, addr), len)
}

/// The prefix of that address and length, if all bits of the address behind the length are 0.
#[tactic(auto, unfolding(cfg_ast::specs::text::Words::exact_prefix))]
pub fn exact_prefix(addr: u32, len: u8) -> Option<Prefix>
    requires { len ≤ 32 }
    ensures { result ≡ exact_prefix addr len }
{
    if bits_behind(len, addr) == 0 {
        Some(Prefix::new(addr, len))
    } else {
        None
    }
}
