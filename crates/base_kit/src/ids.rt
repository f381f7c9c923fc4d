//! Communities and routers as numbers.

/// A BGP community (RFC 1997): `A:B` is 65536 A + B.
#[derive(Clone, Copy, Debug, PartialEq, Eq)]
pub struct Community(pub u32);

/// A router by its place in the network, counted from 0.
#[derive(Clone, Copy, Debug, PartialEq, Eq)]
pub struct RouterId(pub u32);
