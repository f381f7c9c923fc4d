//! The routing protocols that Bonsai reads.

/// A routing protocol that Bonsai reads.
#[derive(Clone, Copy, Debug, PartialEq, Eq)]
pub enum Protocol {
    /// External BGP (RFC 4271).
    Bgp,
    /// One area of OSPF (RFC 2328).
    Ospf,
}
