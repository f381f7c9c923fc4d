//! The program `bonsai-ask`: its words, its files and its streams.
//!
//! `main` hands the words, the files of the system and the two output streams to the top call, and ends
//! with the code of its ending.
#![tactic(auto)]

use adapters::{FileSource, StreamSink, words};
use ask_top::run;
use std::process::ExitCode;

fn main(rt: HostRuntime) -> ExitCode {
    let words = match words(&rt) {
        Ok(words) => words,
        Err(missing) => return ExitCode::from(missing.code()),
    };
    let mut files = FileSource::new(&rt);
    let mut out = StreamSink::new(rt.stdout());
    let mut err = StreamSink::new(rt.stderr());
    let ending = run(rt.alloc(), &words, &mut files, &mut out, &mut err);
    ExitCode::from(ending.code())
}
