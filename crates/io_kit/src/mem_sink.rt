//! A sink in memory, which fails where it is told to.

ghost use Rattle.std.specs.Prelude.{◌≡◌, ◌-◌, ◌≤◌, ◌<◌, ◌⊎◌, ◌↔◌, Some, IfOk, OnOk, OnErr, IsErr, [], length, min, take};
ghost use Rattle.io_kit.specs.Ends.{Rose, Took};
ghost use Rattle.io_kit.specs.Calls.{up};

use crate::{Failed, Sink};
use base_kit::{List, NoMemory};
use std::alloc::Global;
use std::marker::Model;

/// Memory that takes bytes. A call fails if its number, counted from 1, is listed. It also fails if the
/// room is full and the piece is not empty.
#[derive(Drop)]
pub struct MemSink {
    bytes: Vec<u8>,
    most: usize,
    room: usize,
    failing: List<u64>,
    calls: u64,
    faults: u64,
}

impl Model for MemSink {
    ghost use Rattle.std.specs.Prelude.{◌≤◌, vec_capacity, vec_len};
    ghost use Rattle.io_kit.specs.SinkState.{SinkState};

    ghost Value = { SinkState };

    ghost use Rattle.io_kit.specs.SinkStates.{sink_state};

    ghost view = { sink_state };

    ghost invariant = { λ s. (1 ≤ s.most) × (s.room ≤ vec_capacity s.bytes) × (vec_len s.bytes ≤ s.room) };
}

impl MemSink {
    /// A sink that takes at most `most` bytes at once and `room` in all, for which it takes the memory.
    pub fn new(
        alloc: Global,
        most: usize,
        room: usize,
        failing: List<u64>,
    ) -> Result<Self, NoMemory>
        requires { 1 ≤ most }
        ensures { IfOk result (λ s. s ≡ record { taken = []; most = most; room = room; failing = failing; calls = 0; faults = 0 }) }
    {
        let bytes = Vec::with_capacity(alloc, room)?;
        Ok(MemSink {
            bytes,
            most,
            room,
            failing,
            calls: 0,
            faults: 0,
        })
    }

    /// The bytes that it took.
    pub fn taken(&self) -> &[u8]
        ensures { result.now ≡ self.now.taken }
    {
        self.bytes.as_slice()
    }
}

impl Sink for MemSink {
    ghost use Rattle.io_kit.specs.SinkStates.{FailsAt};

    ghost taken = { λ s. Some s.taken };

    ghost faults = { λ s. s.faults };

    #[tactic(auto, using(crate::proofs::Rises::rose_up))]
    fn write(&mut self, bytes: &[u8]) -> Result<usize, Failed>
        ensures later { self.old.faults ≤ self.new.faults }
        ensures within { IfOk result (λ count. count ≤ length bytes.now) }
        ensures some { IfOk result (λ count. 0 < length bytes.now → 0 < count) }
        ensures took { IfOk result (λ count. Took (Some self.old.taken) (Some self.new.taken) (take count bytes.now)) }
        ensures same { OnErr result (Some self.new.taken ≡ Some self.old.taken) }
        ensures cause { OnErr result (Rose self.old.faults self.new.faults) }

        // It fails exactly if the call is listed, or there is no room.
        ensures fails { IsErr result ↔ FailsAt self.old bytes.now }
        ensures calls { self.new.calls ≡ up self.old.calls }
        ensures counted { OnErr result (self.new.faults ≡ up self.old.faults) }
        ensures uncounted { OnOk result (self.new.faults ≡ self.old.faults) }

        // As much as it takes at once, and has room for.
        ensures amount { IfOk result (λ count. count ≡ min (min (length bytes.now) self.old.most) (self.old.room - length self.old.taken)) }
        ensures most { self.new.most ≡ self.old.most }
        ensures room { self.new.room ≡ self.old.room }
        ensures failing { self.new.failing ≡ self.old.failing }
    {
        self.calls = self.calls.saturating_add(1);
        let room = self.room - self.bytes.len();
        let listed = self.failing.as_slice().contains(&self.calls);
        if listed || (room == 0 && !bytes.is_empty()) {
            self.faults = self.faults.saturating_add(1);
            return Err(Failed);
        }
        let count = bytes.len().min(self.most).min(room);
        self.bytes.extend_from_slice(&bytes[..count]).unwrap();
        Ok(count)
    }
}
