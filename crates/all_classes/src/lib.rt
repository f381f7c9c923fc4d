//! The top call of `bonsai-all`: a command on a class, done for every class of a network or for those of a
//! range of numbers, over one reading of the file.
//!
//! `run` reads and checks the network once. Then it writes a frame for each class in order: its number, the
//! exit status that `bonsai` has for the command on it, how many bytes follow, and what `bonsai` writes. Each
//! frame is written before the next class is begun. What `out` took is always a first part of such frames,
//! and all of them where the work was done.
#![tactic(auto)]

mod frame;
mod frames;
mod request;
mod shared_work;
mod top;
mod work;

pub use endings::Ending;
pub use top::run;
