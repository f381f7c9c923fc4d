//! The answer of the program, for tests.
use bonsai_top::{Status, run};
use io_kit::{Sink, Source};
use std::alloc::Global;
use std::test::Fail;

/// What the program answers to these words. It promises nothing, so that each test is proved without the
/// contract of `run`.
pub(crate) fn answer<S: Source, O: Sink, E: Sink>(
    alloc: Global,
    list: &[&str],
    files: &mut S,
    out: &mut O,
    err: &mut E,
) -> Result<Status, Fail> {
    let mut words = Vec::new(alloc);
    for word in list {
        words.push(String::from_str(alloc, word)?)?;
    }
    Ok(run(alloc, &words, files, out, err))
}
