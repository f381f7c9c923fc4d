//! Whether labels are a stable solution of a routing problem.
//!
//! `check` answers `Stable` exactly if the labels are stable. Else it names the first router that breaks
//! stability, with the first of four reasons that fits. It goes over the edges of each router once and
//! builds no path: what a neighbour gives is compared in pieces.
#![tactic(auto)]

mod judgement;
pub mod laws;
mod weights;

pub use judgement::{Answer, check};
