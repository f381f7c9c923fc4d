//! Files of the system, as a source.

ghost use Rattle.std.specs.Prelude.{◌≡◌, ℕ, List, None, true};
ghost use Rattle.adapters.specs.Adapters.{rest_of};

use io_kit::{Failed, Source};
use std::fs;
use std::io::Read;
use std::rt::Files;

/// Files of the system. It does not say what they hold.
#[derive(Drop)]
pub struct FileSource<'a, R: Files> {
    rt: &'a R,
    file: Option<R::File>,
    faults: u64,
}

impl<'a, R: Files> FileSource<'a, R> {
    /// The files of the system, of which none is open and none has failed.
    pub fn new(rt: &'a R) -> Self
        ensures { (name : List ℕ) → ⟦<FileSource<'a, R> as Source>⟧.faults result name ≡ 0 }
    {
        FileSource {
            rt,
            file: None,
            faults: 0,
        }
    }
}

impl<'a, R: Files> Source for FileSource<'a, R> {
    ghost contents = { λ _ _. None };

    ghost rest = { λ s. rest_of s.file };

    ghost begun = { λ _ _. true };

    ghost faults = { λ s _. s.faults };

    fn begin(&mut self, name: &str) -> Result<(), Failed> {
        self.file = None;
        match fs::open(self.rt, name) {
            Ok(file) => {
                self.file = Some(file);
                Ok(())
            }
            Err(_) => {
                self.faults = self.faults.saturating_add(1);
                Err(Failed)
            }
        }
    }

    fn read(&mut self, buf: &mut [u8]) -> Result<usize, Failed> {
        match &mut self.file {
            None => Ok(0),
            Some(file) => match file.read(buf) {
                Ok(count) => Ok(count),
                Err(_) => {
                    self.faults = self.faults.saturating_add(1);
                    Err(Failed)
                }
            },
        }
    }
}
