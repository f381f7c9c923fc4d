//! Lines and words of a text, by their places.

use base_kit::List;

/// A line that is not skipped: its number from 1, the number of its leading blanks and tabs, and its
/// words.
#[derive(Drop)]
pub struct Line {
    pub number: u32,
    pub indent: u32,
    pub words: List<Span>,
}

/// A word of a text: its bytes from the place `from` up to the place before `upto`.
#[derive(Clone, Copy, Debug, PartialEq, Eq)]
pub struct Span {
    pub from: u32,
    pub upto: u32,
}
