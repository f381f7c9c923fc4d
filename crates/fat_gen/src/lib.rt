//! The text of a fat tree.
//!
//! `fat_tree` writes the running configurations of the switches of a fat tree of a size, exactly as
//! the definition `fat_tree_text` says: `Switches.antt` has the switches, `Cables.antt` their cables
//! and ports, and `SwitchLines.antt` the lines of a switch.
#![tactic(auto)]

mod cable;
mod cables;
pub mod laws;
mod lines;
mod ports;
mod refusal;
mod switch;
mod switches;
mod tree;

pub use refusal::FatRefusal;
pub use tree::fat_tree;
