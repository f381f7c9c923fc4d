//! Tests of the functions of sessions, over maps that are made here. The only other code asks, when it
//! runs, whether a map names only communities of a set, so that the tests need not promise it.
#![tactic(auto)]

#[cfg(test)]
mod tests;
pub mod within;
