//! How another program uses the library, from the bytes of a text to the top call and the laws.
//!
//! For each call of the table of docs/inside/LIBRARY.md there is a function here that makes it in the form
//! that is promised. If the form changes, this crate does not compile. The module `records` takes apart what a text gives, `laws` calls
//! laws, and `worked` has four uses in full.
#![tactic(auto)]

pub mod activations;
pub mod certificates;
pub mod checking;
pub mod compression;
pub mod diagrams;
pub mod laws;
pub mod outside;
pub mod policies;
pub mod printing;
pub mod problem;
pub mod reading;
pub mod records;
pub mod refinement;
pub mod solutions;
pub mod top_call;
pub mod values;
pub mod worked;
