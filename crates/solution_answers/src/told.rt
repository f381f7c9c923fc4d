//! What is reported of a solution.

/// What is reported of a solution.
#[derive(Clone, Copy, Debug, PartialEq, Eq)]
pub enum Told {
    /// The labels of all routers.
    Labels,
    /// Whom each router forwards to.
    Hops,
}
