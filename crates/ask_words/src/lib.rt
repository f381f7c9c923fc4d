//! The words of `bonsai-ask`, and what they ask.
//!
//! Words name a file, some of its classes, what is down, and a task; or a file and a file of questions,
//! each line of which has such words without the first. `read_words` and `read_line` give what the words
//! ask, exactly by the definitions `command_of` and `request_of`, or that they are of no form. Names are
//! still texts here: which routers have them is looked up in the network.
#![tactic(auto)]

mod classes;
mod down;
mod lines;
mod names;
mod parts;
mod questions;
mod request;
mod tasks;
mod words;

pub use lines::{asks, read_line};
pub use request::{AskedOf, Classes, Command, Lost, Request, Routers, Task};
pub use words::{class_word, file_word, read_words, second_word};
