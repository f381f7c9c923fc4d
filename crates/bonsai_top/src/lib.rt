//! The top call: from the words of a command to the bytes that it writes.
//!
//! `run` reads the files that the words name, does the command's work and reports its result, a refusal
//! or a fault. The words and the contents of the files allow an outcome: a status, the bytes for `out`
//! and the line for `err`. `run` answers that status and writes exactly these bytes, or it names a fault
//! that the outside counted in this call, or says that memory ran out. What it writes to `out` is always
//! a first part of the outcome's bytes. The module `laws` says that there is only one such outcome if
//! the files are known.
#![tactic(auto)]

mod command;
pub mod laws;
mod tell;
mod top;
mod work;

pub use answer_kit::Status;
pub use command::{ClassCommand, class_command, short_number};
pub use top::run;
