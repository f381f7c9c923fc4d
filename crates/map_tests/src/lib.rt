//! Tests of lists and maps: prefix lists, community lists, route maps, and maps for one prefix. It has
//! no code of its own.
#![tactic(auto)]

#[cfg(test)]
mod communities;
#[cfg(test)]
mod maps;
#[cfg(test)]
mod policies;
#[cfg(test)]
mod prefixes;
