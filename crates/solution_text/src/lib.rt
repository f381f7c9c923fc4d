//! The text of a solution: a line for each router of a problem, with its label.
//!
//! `read_labels` reads the labels of a text for routers of given names, exactly by the definition
//! `labels_of_text`: every label, or the first line at fault with its kind. `print_labels` writes
//! labels as such a text, in the order of the names. `text_with_labels` puts labels whose paths share
//! their tails behind a text, in the same way. All take time by the length of the text and, beside
//! the text, no more memory than the labels, one path and the names need.
#![tactic(auto)]

mod forms;
mod lines;
mod printing;
mod reading;
mod refusal;
mod said;

pub use printing::{print_labels, text_with_labels};
pub use reading::read_labels;
pub use refusal::{SolKind, SolRefusal};
