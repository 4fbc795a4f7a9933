ghost use Rattle.std.specs.Prelude.{◌≡◌, ◌↔◌, ◌+◌, ◌-◌, ◌^◌, ◌≤◌, IsTrue, false, List, ℕ, None, Ok, IsErr, OnErr, min, length};
ghost use Rattle.cl_io.specs.{Counts.counted, Sink.MayTake};

use crate::{Sink, SinkFault};
use std::marker::Model;

/// A sink that takes every piece whole and keeps only how many bytes it took, which is what
/// contracts see. It never fails and takes no memory.
#[derive(Drop)]
pub struct SureSink {
    taken: u64,
}

impl Model for SureSink {
    ghost Value = { ℕ };

    ghost view = { λ s. s.taken };
}

impl SureSink {
    /// Creates a sink that has taken no bytes.
    pub fn new() -> Self
        ensures { result ≡ 0 }
    {
        SureSink { taken: 0 }
    }

    /// Returns how many bytes the sink has taken. At the greatest `u64` the number stays.
    pub fn taken(&self) -> u64
        ensures { result ≡ self.now }
    {
        self.taken
    }
}

impl Sink for SureSink {
    ghost written = { λ _. None };

    ghost faults = { λ _. 0 };

    ghost last_failed = { λ _. false };

    fn write(&mut self, piece: &[u8]) -> Result<usize, SinkFault>
        ensures faults { 0 ≤ 0 }
        ensures answer { MayTake piece.now 0 0 None None result }
        ensures one_more { OnErr result (0 ≡ counted 0) }
        ensures last { IsTrue false ↔ IsErr result }
        ensures whole { result ≡ Ok (length piece.now) }
        ensures taken { self.new ≡ min (self.old + length piece.now) (2 ^ 64 - 1) }
    {
        self.taken = self.taken.saturating_add(piece.len() as u64);
        Ok(piece.len())
    }
}
