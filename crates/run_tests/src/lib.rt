//! Tests of the top call over files and outputs in memory. It has no code of its own.
#![tactic(auto)]

#[cfg(test)]
mod answer;
#[cfg(test)]
mod devices;
#[cfg(test)]
mod names;
#[cfg(test)]
mod ring;
