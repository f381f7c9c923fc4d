//! The parts of routes that their keys compare.
//!
//! A key is the preference of a route, its size, its communities and the lone routers on its path.
//! `lone_numbers` gives the numbers of a problem's lone routers, and `lone_on` those on the path of a
//! route. `preference_of`, `size_of` and `comms_of` give the other parts, `path_of` the path itself, and
//! `same_route` says whether two routes are equal.
#![tactic(auto)]

mod lone;
mod parts;

pub use lone::{LoneNumbers, lone_numbers, lone_on};
pub use parts::{comms_of, path_of, preference_of, same_route, size_of};
