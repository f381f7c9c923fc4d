//! Numbers, addresses, prefixes, communities and names as they are printed.
//!
//! Each call appends to a text exactly the bytes that the definitions of printing give for a value.
//! Where memory runs out, the text is unchanged after a number, an address or a prefix. After another
//! word, or several, it begins with what it was, and a part of the words may follow. A line whose
//! length is bounded is put together in a `Piece`, which takes no memory, and appended by one call.
//! The text of a mask is looked up.
#![tactic(auto)]

mod pieces;
mod tables;
mod values;
mod words;

pub use pieces::{Piece, add_address, add_community, add_number, add_octet, add_prefix};
pub use tables::mask_text;
pub use values::{put_address, put_digits, put_prefix};
pub use words::{put_communities, put_name, put_names, put_number, put_numbers, put_word};
