//! What router lines say.
//!
//! `router_item` reads one line of a running configuration in its scope: at the top, in an interface,
//! in a BGP process or in an OSPF process. It answers exactly the item that the definition gives, and
//! exactly its fault where the line has one: a head in no table, a refused head, or a form that the
//! line does not fit. The contract leaves open only when memory runs out. Lines of lists and route maps
//! are not read here.
#![tactic(auto)]

mod bgp;
mod interface;
mod item;
mod masks;
mod ospf;
mod top;

pub use cfg_ast::{FormFault, RouterItem, Scope};
pub use item::router_item;
