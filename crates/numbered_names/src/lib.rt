//! The places of names: the place of a name is that of the first of the given items that has it.
//!
//! `NamePlaces::of` goes over the items once and keeps a copy of each name. After that a name gives its
//! place, and a word of a text too, whatever bytes it has; `number_of_word` gives the place as a number
//! of 32 bits, and `item_named` the item itself. `NameSet` is a set of names that it does not copy.
//! `NameHashing` says how a table hashes: where names are many, by a key that hangs on all of them.
#![tactic(auto)]

mod ast;
mod has_name;
mod hashing;
mod places;
mod sets;

pub use has_name::HasName;
pub use hashing::{FEW, NameDigest, NameHashing};
pub use places::NamePlaces;
pub use sets::NameSet;
