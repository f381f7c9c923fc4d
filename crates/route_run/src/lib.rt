//! Activations of routers, one after the other, in any order.
//!
//! An activation is one router that chooses its label anew from the labels as they stand. `read_schedule`
//! reads a list of them from a text, `run_schedule` runs it from no labels at all, `Runner` runs one after
//! the other, `activate` a single one, and `moving` says whether labels are at rest. `reach` gives the
//! activations that lead to a given solution. An activation of a `Runner` takes time by the edges of its
//! router and the paths over them. In a run a router that was activated is passed over until the label of
//! a router from which it imports changes.
#![tactic(auto)]

mod activation;
mod choosing;
mod comparing;
pub mod laws;
mod order;
mod reading;
mod resting;
mod running;
mod schedule;

pub use activation::{Runner, activate};
pub use order::reach;
pub use reading::read_schedule;
pub use running::{moving, run_schedule};
pub use schedule::{Activation, ScheduleRefusal};
