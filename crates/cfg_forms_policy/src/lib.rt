//! What lines of prefix lists, community lists and route maps say.
//!
//! `policy_item` reads one line of a running configuration, at the top or in an entry of a route map.
//! It answers exactly the item that the definition gives, and exactly its fault where the line has one:
//! a head in no table, a refused head, a form that the line does not fit, or, if the line has no other
//! fault, a well-known community. The contract leaves open only when memory runs out.
#![tactic(auto)]

mod act;
mod communities;
mod community_line;
mod entry;
mod item;
mod map_head;
mod name_list;
mod prefix_entry;
mod word_groups;

pub use cfg_ast::{FormFault, PolicyItem, PolicyScope};
pub use item::policy_item;
