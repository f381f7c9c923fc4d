//! Canonical policies: the maps by which a session could say what it imports, whatever maps it was
//! written with.
//!
//! `specs/Canonical` defines the canonical lists of a function of a session, which depend only on what
//! is imported. The laws say that functions which import every set of communities alike have equal
//! lists, and that the lists import every set as the function does. `canon` writes the lists of a
//! function that is kept in a store of diagrams, or answers that there are none or that memory ran out.
//! `canon_srp` replaces the acts of a problem's edges by them.
#![tactic(auto)]

mod canonical;
mod entries;
mod fixed;
mod fixing;
pub mod laws;
mod lists;
mod others;
mod parts;
mod problem;
mod walk;

pub use canonical::canon;
pub use fixing::Fixing;
pub use lists::{CanonEdge, CanonRefusal};
pub use problem::{CanonSrpRefusal, canon_srp};
