//! Address prefixes (RFC 4632 section 3.1).

ghost use Rattle.std.specs.Prelude.{◌≡◌, ◌≤◌};

use std::marker::Model;

/// A set of addresses by its first one and the number of leading bits that all of them share
/// (RFC 4632 section 3.1), as `10.0.0.0/8`. The length is at most 32.
#[derive(Clone, Copy, Debug, PartialEq, Eq, PartialOrd, Ord)]
pub struct Prefix {
    addr: u32,
    len: u8,
}

impl Model for Prefix {
    ghost use Rattle.std.specs.Prelude.{◌≤◌};
    ghost use Rattle.base_kit.specs.Prefixes.{Prefix};

    ghost Value = { Prefix };

    ghost view = { λ p. record { addr = p.addr; len = p.len } };

    ghost invariant = { λ p. p.len ≤ 32 };

    ghost inverse = { λ p. record { addr = p.addr; len = p.len } };
}

impl Prefix {
    /// The prefix of that address and length.
    pub fn new(addr: u32, len: u8) -> Prefix
        requires { len ≤ 32 }
        ensures { result ≡ record { addr = addr; len = len } }
    {
        Prefix { addr, len }
    }

    /// Its first address.
    pub fn addr(&self) -> u32
        ensures { result ≡ self.now.addr }
    {
        self.addr
    }

    /// Its length in bits, at most 32.
    pub fn len(&self) -> u8
        ensures value { result ≡ self.now.len }
        ensures bound { self.now.len ≤ 32 }
    {
        self.len
    }
}
