//! Routes whose paths share their tails, and labels of such routes.
//!
//! In stable labels a router's path is mostly that of the router from which it has its route, with one
//! number more. A `SharedPath` holds its first numbers itself and shares the tail behind them with other
//! paths, so that the labels of a long network take little more than its routers. To its callers it is the
//! list of its numbers, a `SharedRoute` is a route, and `SharedLabels` are labels.
#![tactic(auto)]

mod candidate_lists;
mod labels;
mod paths;
mod routes;
mod stepping;

pub use candidate_lists::{SharedCandidate, candidates};
pub use labels::SharedLabels;
pub use paths::SharedPath;
pub use routes::{RouteParts, SharedRoute, comms_of, lone_on, preference_of, size_of};
pub use stepping::route_by;
