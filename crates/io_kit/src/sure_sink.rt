//! A sink that never fails.

ghost use Rattle.std.specs.Prelude.{◌≡◌, ◌≤◌, ◌<◌, Ok, IfOk, OnErr, length, take};
ghost use Rattle.io_kit.specs.Ends.{Rose, Took, untold};

use crate::{Failed, Sink};

/// Takes the whole of each piece, keeps none of it, and never fails.
#[derive(Clone, Copy, Debug)]
pub struct SureSink;

impl SureSink {
    pub fn new() -> Self {
        SureSink
    }
}

impl Sink for SureSink {
    ghost taken = { λ _. untold };

    ghost faults = { λ _. 0 };

    fn write(&mut self, bytes: &[u8]) -> Result<usize, Failed>
        ensures later { 0 ≤ 0 }
        ensures within { IfOk result (λ count. count ≤ length bytes.now) }
        ensures some { IfOk result (λ count. 0 < length bytes.now → 0 < count) }
        ensures took { IfOk result (λ count. Took untold untold (take count bytes.now)) }
        ensures same { OnErr result (untold ≡ untold) }
        ensures cause { OnErr result (Rose 0 0) }
        ensures whole { result ≡ Ok (length bytes.now) }
    {
        Ok(bytes.len())
    }
}
