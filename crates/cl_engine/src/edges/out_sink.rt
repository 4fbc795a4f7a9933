ghost use Rattle.std.specs.Prelude.{◌≡◌, ◌≤◌, false, length, None, IfOk};
ghost use Rattle.cl_engine.specs.Edges.{TakesAsAnswered};

use cl_io::{Sink, SinkFault};
use std::io;
use std::io::Write;

/// The standard output of a runtime, as a sink. It doesn't tell what was written.
#[derive(Drop)]
pub struct OutSink<'a, P: Print> {
    out: &'a P,
    faults: u64,
    last_failed: bool,
}

impl<'a, P: Print> OutSink<'a, P> {
    /// Makes a sink of which no write has failed yet. Takes no memory.
    pub fn new(out: &'a P) -> Self
        ensures faults { ⟦<OutSink<'a, P> as Sink>⟧.faults result ≡ 0 }
        ensures last { ⟦<OutSink<'a, P> as Sink>⟧.last_failed result ≡ false }
    {
        OutSink {
            out,
            faults: 0,
            last_failed: false,
        }
    }
}

impl<P: Print> Sink for OutSink<'_, P> {
    ghost written = { λ _. None };

    ghost faults = { λ s. s.faults };

    ghost last_failed = { λ s. s.last_failed };

    fn write(&mut self, piece: &[u8]) -> Result<usize, SinkFault> {
        let answer = taken_of(write_through(self.out, piece), piece.len());
        self.last_failed = answer.is_err();
        if self.last_failed {
            self.faults = self.faults.saturating_add(1);
        }
        answer
    }
}

/// Converts the output's answer to a write of `len` bytes: an error is a failure, and so is taking
/// nothing of a piece that isn't empty.
fn taken_of(answer: io::Result<usize>, len: usize) -> Result<usize, SinkFault>
    ensures { TakesAsAnswered answer len result }
{
    match answer {
        Ok(taken) if taken > 0 || len == 0 => Ok(taken),
        // An output that takes nothing of a piece has failed as well.
        _ => Err(SinkFault::Failed),
    }
}

/// Writes the first bytes of a piece, flushes them, and returns how many were written.
fn write_through<P: Print>(out: &P, piece: &[u8]) -> io::Result<usize>
    ensures { IfOk result (λ taken. taken ≤ length piece.now) }
{
    let mut writer = io::writer(out);
    let taken = writer.write(piece)?;
    writer.flush()?;
    Ok(taken)
}
