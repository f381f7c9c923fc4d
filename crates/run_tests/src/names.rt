//! The names that a run begins.
ghost use Rattle.std.specs.Prelude.{Some};
ghost use Rattle.io_kit.specs.Files.{all_begun, contents_or_empty};

use crate::answer::answer;
use crate::ring::ring;
use base_kit::List;
use bonsai_top::Status;
use io_kit::{Failed, MemSink, Source, SureSource};
use std::test::Fail;

/// Files in memory that note each name that is begun.
#[derive(Drop)]
struct NotingSource {
    files: SureSource,
    names: String,
}

impl Source for NotingSource {
    ghost contents = { λ s n. Some (contents_or_empty s.files.files n) };

    ghost rest = { λ s. Some s.files.rest };

    ghost begun = { λ _. all_begun };

    ghost faults = { λ _ _. 0 };

    fn begin(&mut self, name: &str) -> Result<(), Failed> {
        let _is_noted = self.names.push_str(name).is_ok();
        self.files.begin(name)
    }

    fn read(&mut self, buf: &mut [u8]) -> Result<usize, Failed> {
        self.files.read(buf)
    }
}

#[test]
fn no_name_is_begun_but_those_of_the_words(rt: HostRuntime) -> Result<(), Fail> {
    let alloc = rt.alloc();
    let mut files = NotingSource {
        files: SureSource::new(ring(alloc)?),
        names: String::new(alloc),
    };
    let mut out = MemSink::new(alloc, 4096, 4096, List::new(alloc))?;
    let mut err = MemSink::new(alloc, 4096, 4096, List::new(alloc))?;
    let status = answer(
        alloc,
        &["check", "F", "1", "S"],
        &mut files,
        &mut out,
        &mut err,
    )?;
    assert_eq!(rt; status, Status::Done);
    assert_eq!(rt; files.names.as_bytes(), b"FS".as_slice());
    Ok(())
}
