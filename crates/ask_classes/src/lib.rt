//! What a request to `bonsai-ask` writes of one class.
//!
//! `put_class` appends it: how many solutions the class has, each of them, the answer to a question, or also the
//! answers without each one link or router more that is not down. The problem of the class and what is left of it
//! where routers and links are down are given.
#![tactic(auto)]

mod asking;
mod class_parts;
mod known;
mod link_run;
mod link_trials;
mod manner;
mod router_trials;
mod scene;
mod tally;

pub use class_parts::put_class;
pub use manner::Manner;
pub use scene::{Problems, Scene};
