//! Interfaces and their addresses.

ghost use Rattle.std.specs.Prelude.{◌≡◌, ◌≤◌};

use base_kit::Text;
use std::marker::Model;

/// An interface, with the number of its `interface` line.
#[derive(Drop)]
pub struct Interface {
    pub name: Text,
    pub line: u32,
    pub address: Option<Address>,
    pub cost: Option<u16>,
    pub shut: bool,
}

/// An address, the length of its mask, from 1 to 32, and the number of its `ip address` line.
#[derive(Clone, Copy, Debug, PartialEq, Eq)]
pub struct Address {
    addr: u32,
    len: u8,
    line: u32,
}

impl Model for Address {
    ghost use Rattle.std.specs.Prelude.{◌≤◌};
    ghost use Rattle.cfg_ast.specs.meaning.Addresses.{Address};

    ghost Value = { Address };

    ghost view = { λ a. record { addr = a.addr; len = a.len; line = a.line } };

    ghost invariant = { λ a. (1 ≤ a.len) × (a.len ≤ 32) };

    ghost inverse = { λ a. record { addr = a.addr; len = a.len; line = a.line } };
}

impl Address {
    /// The address with a mask of that length, given at that line.
    pub fn new(addr: u32, len: u8, line: u32) -> Address
        requires some { 1 ≤ len }
        requires bound { len ≤ 32 }
        ensures { result ≡ record { addr = addr; len = len; line = line } }
    {
        Address { addr, len, line }
    }

    /// The address itself.
    pub fn addr(&self) -> u32
        ensures { result ≡ self.now.addr }
    {
        self.addr
    }

    /// The length of its mask, from 1 to 32.
    pub fn len(&self) -> u8
        ensures value { result ≡ self.now.len }
        ensures some { 1 ≤ self.now.len }
        ensures bound { self.now.len ≤ 32 }
    {
        self.len
    }

    /// The number of its line.
    pub fn line(&self) -> u32
        ensures { result ≡ self.now.line }
    {
        self.line
    }
}
