ghost use Rattle.std.specs.Prelude.{◌≡◌, ◌↔◌, IsTrue, [], ◌∷◌, ◌++◌, ◌<◌, ◌≤◌, Some, IsErr, IfOk, OnOk, OnErr};
ghost use Rattle.cl_io.specs.{Counts.counted, Sink.MayTake, MemSink.{new_sink, answer_of, after_write}};

use crate::{Sink, SinkFault};
use cl_time::NoMemory;
use std::alloc::Global;
use std::marker::Model;

/// A sink in memory with room for a fixed number of bytes. Each write takes at most `step` of them,
/// and fails where no room is left or where the sink is told to fail.
#[derive(Drop)]
pub struct MemSink {
    bytes: Vec<u8>,
    room: usize,
    step: usize,
    failing: Vec<u64>,
    calls: u64,
    faults: u64,
    last_failed: bool,
}

impl Model for MemSink {
    ghost use Rattle.std.specs.Prelude.{◌≤◌, ◌<◌, vec_len, vec_capacity};
    ghost use Rattle.cl_io.specs.MemSink.{MemSinkState};
    ghost use Rattle.cl_io.specs.Inner.Room.{IsRoomy};

    ghost Value = { MemSinkState };

    ghost view = { λ s. record {
      written = s.bytes.items;
      room = s.room;
      step = s.step;
      failing = s.failing.items;
      calls = s.calls;
      faults = s.faults;
      last_failed = s.last_failed;
    } };

    ghost invariant = { λ s. IsRoomy (vec_len s.bytes) s.room (vec_capacity s.bytes) s.step };
}

impl MemSink {
    /// Creates a sink with room for `room` bytes, of which one write takes at most `step`. The room
    /// is allocated here: `NoMemory` comes where there is no memory for it.
    pub fn new(alloc: Global, room: usize, step: usize) -> Result<Self, NoMemory>
        requires { 0 < step }
        ensures { IfOk result (λ sink. sink ≡ new_sink room step) }
    {
        Ok(MemSink {
            bytes: Vec::with_capacity(alloc, room)?,
            room,
            step,
            failing: Vec::new(alloc),
            calls: 0,
            faults: 0,
            last_failed: false,
        })
    }

    /// Makes the write with this number fail, counted from 0. After `NoMemory` the sink is as it
    /// was.
    pub fn fail_call(&mut self, call: u64) -> Result<(), NoMemory>
        ensures ok { OnOk result
            (self.new ≡ record self.old { failing = self.old.failing ++ call ∷ [] }) }
        ensures err { OnErr result (self.new ≡ self.old) }
    {
        self.failing.push(call)?;
        Ok(())
    }

    /// Returns all bytes that were written.
    pub fn bytes(&self) -> &[u8]
        ensures { result.now ≡ self.now.written }
    {
        self.bytes.as_slice()
    }
}

impl Sink for MemSink {
    ghost written = { λ s. Some s.written };

    ghost faults = { λ s. s.faults };

    ghost last_failed = { λ s. s.last_failed };

    fn write(&mut self, piece: &[u8]) -> Result<usize, SinkFault>
        ensures faults { self.old.faults ≤ self.new.faults }
        ensures answer { MayTake piece.now self.old.faults self.new.faults (Some self.old.written) (Some self.new.written) result }
        ensures one_more { OnErr result (self.new.faults ≡ counted self.old.faults) }
        ensures last { IsTrue self.new.last_failed ↔ IsErr result }
        ensures scripted { result ≡ answer_of self.old piece.now }
        ensures after { self.new ≡ after_write self.old piece.now }
    {
        let call = self.calls;
        self.calls = call.saturating_add(1);
        let left = self.room - self.bytes.len();
        self.last_failed = left == 0 || self.failing.contains(&call);
        if self.last_failed {
            self.faults = self.faults.saturating_add(1);
            return Err(SinkFault::Failed);
        }
        let taken = piece.len().min(self.step).min(left);
        // The room was taken at once, so this can't fail.
        self.bytes.extend_from_slice(&piece[..taken]).unwrap();
        Ok(taken)
    }
}
