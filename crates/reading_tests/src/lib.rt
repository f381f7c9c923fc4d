//! Tests of the reading of a text: words and lines, the forms of lines, names, and values as they are
//! printed. It has no code of its own.
#![tactic(auto)]

#[cfg(test)]
mod lexing;
#[cfg(test)]
mod lists_by_name;
#[cfg(test)]
mod names;
#[cfg(test)]
mod policy_forms;
#[cfg(test)]
mod printing;
#[cfg(test)]
mod router_forms;
