//! What the commands share: the reply that a command comes to and the outcome that it stands for, the
//! class of a number, and the second file with its solution. Each call gives one of these, or the reply
//! to tell if there is none.
#![tactic(auto)]

mod class_numbers;
mod kinds;
mod names;
mod reply;
mod second;
mod solution;
mod status;

pub use class_numbers::class_of_number;
pub use kinds::name_of_kind;
pub use names::router_name;
pub use reply::{Reply, refuse};
pub use second::read_second;
pub use solution::solution_of;
pub use status::Status;
