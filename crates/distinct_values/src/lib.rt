//! Lists of values that are all different, each numbered by its place.
//!
//! The crate has no code. `specs/Distinct` says when the values of a list are all different, which crates
//! above cite in their contracts, and `proofs/Interned` has its lemmas: the keys of an index map are all
//! different where its test for equal keys is right, and a key that is put in stands at the place that the
//! map gives it, last if it is new.
#![tactic(auto)]
