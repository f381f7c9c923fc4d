//! The lines of a text.
//!
//! `lines` cuts a text at its newlines, drops one carriage return at the end of each line, and gives
//! the number, the indentation and the words of every line that is not skipped; or it refuses the text
//! at its first line with a byte that is not plain, with too many bytes, or behind the last line that a
//! text may have. Its contract is the definition `lines_of`, by the places of newlines and blanks. It
//! also says that every word lies in the text and is ASCII, which the readers of lines ask for.
//!
//! A text of another kind, as a solution or a certificate, is read line by line with `newline_from`,
//! `without_return` and `next_word`, which keep nothing.
#![tactic(auto)]

mod all_lines;
mod cutting;
mod faults;
mod following;
mod lanes;
mod line_words;
mod places;
mod words;

pub use all_lines::every_line;
pub use cfg_ast::{FormFault, Line, Span};
pub use cutting::lines;
pub use faults::sound;
pub use following::{Place, line_from};
pub use line_words::next_word;
pub use places::{newline_from, without_return};
