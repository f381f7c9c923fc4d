//! Lists of items under names, as the prefix lists, route maps and community lists of a router are.
//!
//! `ByName` has items that have a name each; `NamedLists` has lists that begin with the first item under
//! their name, and grow by the others; `NumberedLists` has such lists whose items have numbers, and
//! gives each in the order of its numbers. Contracts see each of them as the list of its items, or of
//! its names with their items. If memory runs out for one more item, no item is left.
#![tactic(auto)]

mod by_name;
mod named;
mod numbered;
mod numbers;
mod places;
mod room;

pub use by_name::ByName;
pub use named::{NamedList, NamedLists};
pub use numbered::{Numbered, NumberedLists};
pub use room::{fitted, pushed};
