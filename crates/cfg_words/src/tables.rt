//! The tables of heads, one for each scope.

pub(crate) mod bgp;
pub(crate) mod entry;
pub(crate) mod interface;
pub(crate) mod ospf;
pub(crate) mod top;
