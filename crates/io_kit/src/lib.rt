//! The outside as a program sees it: named files that are read, and places that take bytes.
//!
//! A `Source` says what its files hold, and a `Sink` what it took, as far as they can say it; both
//! count their faults, and a call fails only if the count rose. `read_all` gives the whole content of a
//! name, or says that it is longer than the limit; `put_all` leaves a first part of the bytes, and all
//! of them if it answers Ok. For files in memory the contents are known. Their calls fail in exactly
//! three cases: the number of the call is listed, the name is not there, or there is no room for a
//! piece. `SureSource` and `SureSink` never fail. All of these are for tests, and for callers that need
//! an outside that cannot fail.
#![tactic(auto)]

mod ends;
mod files;
mod mem_sink;
mod mem_source;
mod sure_sink;
mod sure_source;
mod whole;

pub use ends::{Failed, Sink, Source};
pub use files::MemFile;
pub use mem_sink::MemSink;
pub use mem_source::MemSource;
pub use sure_sink::SureSink;
pub use sure_source::SureSource;
pub use whole::{InFault, put_all, read_all};
