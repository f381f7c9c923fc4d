//! Four uses in full: links of a text, policies that act alike, a graph of one's own, and the way of `compress`.

pub mod compression;
pub mod graph;
pub mod policies;
pub mod topology;
