//! A source that never fails.

ghost use Rattle.std.specs.Prelude.{◌≡◌, [], Some};
ghost use Rattle.io_kit.specs.Files.{all_begun, contents_or_empty};

use crate::files::{copy_front, file_bytes, place_of};
use crate::{Failed, MemFile, Source};
use base_kit::List;
use std::marker::Model;

/// Files in memory that never fail. A name that it does not hold is an empty file.
#[derive(Drop)]
pub struct SureSource {
    files: List<MemFile>,
    place: Option<usize>,
    at: usize,
}

impl Model for SureSource {
    ghost use Rattle.io_kit.specs.SourceState.{SureState};

    ghost Value = { SureState };

    ghost use Rattle.io_kit.specs.SourceStates.{sure_state};

    ghost view = { sure_state };
}

impl SureSource {
    /// These files. If several have one name, the first counts.
    pub fn new(files: List<MemFile>) -> Self
        ensures { result ≡ record { files = files; rest = [] } }
    {
        SureSource {
            files,
            place: None,
            at: 0,
        }
    }
}

impl Source for SureSource {
    ghost contents = { λ s n. Some (contents_or_empty s.files n) };

    ghost rest = { λ s. Some s.rest };

    ghost begun = { λ _. all_begun };

    ghost faults = { λ _ _. 0 };

    fn begin(&mut self, name: &str) -> Result<(), Failed> {
        self.place = place_of(self.files.as_slice(), name);
        self.at = 0;
        Ok(())
    }

    fn read(&mut self, buf: &mut [u8]) -> Result<usize, Failed> {
        let bytes = file_bytes(self.files.as_slice(), self.place);
        if self.at >= bytes.len() {
            return Ok(0);
        }
        let count = copy_front(&bytes[self.at..], buf);
        self.at += count;
        Ok(count)
    }
}
