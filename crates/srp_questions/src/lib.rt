//! Questions about the labels of a routing problem, and what they come to.
//!
//! `next_hops` gives the routers to whom each router forwards, exactly. `is_true` says whether a
//! question is true in labels, in time linear in the routers and edges except for one sort of the labels
//! by size.
//!
//! The paths of the labels share their tails. A question about routes and communities reads no path;
//! to whom a router forwards is found over whole paths.
#![tactic(auto)]

mod forwarding;
pub mod laws;
mod marks;
mod order;
mod question;
mod ties;
mod truth;
mod verdict;
mod walks;

pub use forwarding::next_hops;
pub use question::Question;
pub use truth::is_true;
pub use verdict::Verdict;
