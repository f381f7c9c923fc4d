//! How an answer is written.

/// How an answer is written: for one class that is named, its solutions are numbered without the class; and the labels
/// behind a `no` may be shown.
#[derive(Clone, Copy, Debug, PartialEq, Eq)]
pub struct Manner {
    pub one: bool,
    pub shows: bool,
}
