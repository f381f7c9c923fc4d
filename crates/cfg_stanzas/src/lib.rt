//! The lines of a stanza, taken one by one.
//!
//! An interface, a BGP process, an OSPF process and an entry of a route map each change in place by what one of
//! their lines says, exactly as the definition does: the new value, or the fault of the line. `said_in` and
//! `policy_said_in` read a line, with its fault at its line. The contract leaves open only when memory
//! runs out.
#![tactic(auto)]

mod areas;
mod bgp;
mod entry;
mod faults;
mod interface;
mod names;
mod neighbors;
mod networks;
mod ospf;
mod said;

pub use bgp::{BgpDraft, set_bgp};
pub use entry::set_entry;
pub use faults::{misplaced, once, repeated};
pub use interface::set_interface;
pub use ospf::{OspfDraft, set_ospf};
pub use said::{policy_said_in, said_in};
