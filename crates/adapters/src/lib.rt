//! The outside of a program: the words of its process, the files of the system and its streams.
//!
//! `words` fetches what a person wrote behind the program's name. `FileSource` is the files of the system
//! and `StreamSink` is a stream, as `io_kit` sees them. They do not say what a file holds or a stream keeps,
//! and count each of their failures.
#![tactic(auto)]

mod file_source;
mod process_words;
mod stream_sink;

pub use file_source::FileSource;
pub use process_words::{NoWords, words};
pub use stream_sink::StreamSink;
