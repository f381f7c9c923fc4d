//! Tests of the words of a question. It has no code of its own.
#![tactic(auto)]

#[cfg(test)]
mod requests;
#[cfg(test)]
mod words;
