//! The answer to a question about a problem.

/// What a question comes to in the stable labels of a problem.
#[derive(Clone, Copy, Debug, PartialEq, Eq)]
pub enum Verdict {
    /// There are stable labels, and the question is true in all of them.
    Yes,
    /// It is false in some stable labels.
    No,
    /// No labels are stable.
    NoSolution,
}
