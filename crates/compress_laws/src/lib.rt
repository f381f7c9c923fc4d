//! The law that the text written for a class describes the compressed network.
//!
//! `specs/Compressed` says what it means that the bytes of configurations compress a network for a class
//! of destination prefixes: they are read without refusal, their routers are the groups of the coarsest
//! admissible partition, and for each prefix of the class the stable solutions of both networks
//! correspond. The laws put together what the crates below say, and know of no diagram, worklist or
//! printed line.
#![tactic(auto)]

pub mod emitted;
pub mod laws;
