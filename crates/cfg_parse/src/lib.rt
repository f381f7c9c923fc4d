//! The network of a text.
//!
//! `read_network` reads a text line by line and gives the network of the text. It refuses the text at
//! the first line with a fault of its own, or else at the first with a fault of form, or else because
//! the last `end` is missing. Its contract is the definition `network_of_text`.
//!
//! `read_members` gives the names on the member lines of a text, which reading a network skips.
#![tactic(auto)]

mod community_lists;
mod draft;
mod end_line;
mod interfaces;
mod members;
mod policy;
mod prefix_lists;
mod reading;
mod route_maps;
mod router_names;
mod stanza;
mod top;

pub use members::read_members;
pub use reading::read_network;
