//! A source in memory, which fails where it is told to.

ghost use Rattle.std.specs.Prelude.{◌≡◌, ◌++◌, ◌≤◌, ◌<◌, ◌⊎◌, ◌↔◌, ℕ, List, [], length, min, take, Some, None, true, is_some, IsErr, IfOk, IfSome, OnOk, OnErr, Contains};
ghost use Rattle.io_kit.specs.Ends.{Rose, Gave};
ghost use Rattle.io_kit.specs.Calls.{up};
ghost use Rattle.io_kit.specs.Files.{all_begun, contents_of};

use crate::files::{copy_front, file_bytes, place_of};
use crate::{Failed, MemFile, Source};
use base_kit::List;
use std::marker::Model;

/// Files in memory. A call fails if its number is listed; calls of `begin` and `read` are numbered
/// together from 1. A `begin` also fails if no file has the name.
#[derive(Drop)]
pub struct MemSource {
    files: List<MemFile>,
    failing: List<u64>,
    calls: u64,
    faults: u64,
    place: Option<usize>,
    at: usize,
}

impl Model for MemSource {
    ghost use Rattle.io_kit.specs.SourceState.{SourceState};

    ghost Value = { SourceState };

    ghost use Rattle.io_kit.specs.SourceStates.{source_state};

    ghost view = { source_state };
}

impl MemSource {
    /// These files, and the numbers of the calls that fail. If several files have one name, the first
    /// counts.
    pub fn new(files: List<MemFile>, failing: List<u64>) -> Self
        ensures { result ≡ record { files = files; rest = []; failing = failing; calls = 0; faults = 0 } }
    {
        MemSource {
            files,
            failing,
            calls: 0,
            faults: 0,
            place: None,
            at: 0,
        }
    }
}

impl Source for MemSource {
    ghost contents = { λ s n. contents_of s.files n };

    ghost rest = { λ s. Some s.rest };

    ghost begun = { λ _. all_begun };

    ghost faults = { λ s _. s.faults };

    #[tactic(auto, using(crate::proofs::Rises::rose_up))]
    fn begin(&mut self, name: &str) -> Result<(), Failed>
        ensures contents { contents_of self.new.files ≡ contents_of self.old.files }
        ensures later { (n : List ℕ) → self.old.faults ≤ self.new.faults }
        ensures begun { OnOk result (all_begun name.now ≡ true) }
        ensures whole { OnOk result (Some self.new.rest ≡ contents_of self.old.files name.now) }
        ensures empty { OnErr result (Some self.new.rest ≡ Some []) }
        ensures cause { OnErr result (Rose self.old.faults self.new.faults) }

        // It fails exactly if the call is listed, or the name is not there.
        ensures fails { IsErr result ↔ Contains self.old.failing (up self.old.calls) ⊎ (contents_of self.old.files name.now ≡ None) }
        ensures calls { self.new.calls ≡ up self.old.calls }
        ensures counted { OnErr result (self.new.faults ≡ up self.old.faults) }
        ensures uncounted { OnOk result (self.new.faults ≡ self.old.faults) }
        ensures files { self.new.files ≡ self.old.files }
        ensures failing { self.new.failing ≡ self.old.failing }
    {
        self.place = None;
        self.at = 0;
        self.calls = self.calls.saturating_add(1);
        let place = place_of(self.files.as_slice(), name);
        match place {
            Some(i) if !self.failing.as_slice().contains(&self.calls) => {
                self.place = Some(i);
                Ok(())
            }
            _ => {
                self.faults = self.faults.saturating_add(1);
                Err(Failed)
            }
        }
    }

    #[tactic(auto, using(crate::proofs::Rises::rose_up))]
    fn read(&mut self, buf: &mut [u8]) -> Result<usize, Failed>
        ensures contents { contents_of self.new.files ≡ contents_of self.old.files }
        ensures later { (n : List ℕ) → self.old.faults ≤ self.new.faults }
        ensures begun { all_begun ≡ all_begun }
        ensures told { is_some (Some self.new.rest) ≡ is_some (Some self.old.rest) }
        ensures within { IfOk result (λ count. count ≤ length buf.new) }
        ensures gave { IfOk result (λ count. Gave (Some self.old.rest) (Some self.new.rest) (take count buf.new)) }
        ensures end { IfOk result (λ count. count ≡ 0 → 0 < length buf.new → IfSome (Some self.new.rest) (λ r. r ≡ [])) }
        ensures cause { OnErr result ((n : List ℕ) → all_begun n ≡ true → Rose self.old.faults self.new.faults) }

        // It fails exactly if the call is listed.
        ensures fails { IsErr result ↔ Contains self.old.failing (up self.old.calls) }
        ensures calls { self.new.calls ≡ up self.old.calls }
        ensures counted { OnErr result (self.new.faults ≡ up self.old.faults) }
        ensures uncounted { OnOk result (self.new.faults ≡ self.old.faults) }

        // As much as there is, and as fits.
        ensures amount { IfOk result (λ count. count ≡ min (length self.old.rest) (length buf.old)) }
        ensures unread { OnErr result (self.new.rest ≡ self.old.rest) }
        ensures files { self.new.files ≡ self.old.files }
        ensures failing { self.new.failing ≡ self.old.failing }
    {
        self.calls = self.calls.saturating_add(1);
        if self.failing.as_slice().contains(&self.calls) {
            self.faults = self.faults.saturating_add(1);
            return Err(Failed);
        }
        let bytes = file_bytes(self.files.as_slice(), self.place);
        if self.at >= bytes.len() {
            return Ok(0);
        }
        let count = copy_front(&bytes[self.at..], buf);
        self.at += count;
        Ok(count)
    }
}
