//! Tests of the uses of the library that `library_uses` has. It has no code of its own.
#![tactic(auto)]

#[cfg(test)]
mod uses;
