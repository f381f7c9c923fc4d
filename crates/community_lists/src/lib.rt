//! The answers of community lists.
//!
//! `permits` is the answer of a list to a set of communities: its lines are tried in the order of the
//! text, the first that holds decides, and the end denies. `permits_exact` is the same where a line
//! holds only for exactly the communities that it names, and `permits_alone` is `permits` for a set of
//! one community. No call takes memory.
#![tactic(auto)]

mod answers;

pub use answers::{permits, permits_alone, permits_exact};
