//! The problem that is left where routers and links are down.
//!
//! `without` gives it, as `srp_core`'s `specs/Without.antt` defines it. Which routers are lone is found anew, from the
//! edges that are left. For this the type `Failures` knows what each act of a problem accepts: it is made once for a
//! problem, and serves all of its failures. Where no router of a problem is lone, none is lone in what is left, and
//! nothing is asked of the acts.
#![tactic(auto)]

mod accepted;
mod acts;
mod left;
mod marks;
mod problem;

pub use acts::Failures;
pub use problem::without;
