//! The text of a network.
//!
//! `text` prints a network, and for each router the names of those that it stands for, exactly as the
//! definition `printed` says, in one pass. It refuses a network whose text would be too long to be read.
//! `cfg_round_trip` has the laws, over the definitions alone: the text is read back as the same network
//! except for line numbers, and the names as the members of its routers.
#![tactic(auto)]

mod bgp;
mod interfaces;
mod lists;
mod ospf;
mod print;
mod refusal;
mod route_maps;
mod routers;
mod words;

pub use print::text;
pub use refusal::PrintRefusal;
