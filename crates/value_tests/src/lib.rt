//! Tests of the crates of values and of diagrams: lists, numbers, tables, ends of files, diagrams of
//! communities. It has no code of its own.
#![tactic(auto)]

#[cfg(test)]
mod cache;
#[cfg(test)]
mod diagrams;
#[cfg(test)]
mod ends;
#[cfg(test)]
mod index;
#[cfg(test)]
mod keys;
#[cfg(test)]
mod kit;
#[cfg(test)]
mod number_tables;
