//! The words of a line, and the head that decides it.
//!
//! A head is the words that a line begins with. `router_class` and `policy_class` look in the tables of
//! a scope for the longest head that begins the line, and answer what the definitions say of that head:
//! its form, or that it is refused or ignored. The heads that texts have most of are told at once. Any
//! other line is compared only with the heads that begin with its first byte, and in the longest tables
//! only with those that also fit the first byte of its second or third word: the tables are constants,
//! each equal to what the table of the definitions has for those bytes. The other calls read single
//! words, exactly by their definitions.
#![tactic(auto)]

mod common_heads;
mod communities;
mod device_names;
mod heads;
pub mod marks;
mod names;
mod numbers;
mod prefixes;
mod tables;
mod words;

pub use communities::read_community;
pub use device_names::{is_interface_name, is_router_name};
pub use heads::{policy_class, router_class};
pub use names::{is_list_name, list_name, named};
pub use numbers::{read_address, read_as_number, read_between, read_number};
pub use prefixes::{cut_to, exact_prefix};
pub use words::{copy_of, text};
