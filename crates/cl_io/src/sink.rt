ghost use Rattle.std.specs.Prelude.{◌≡◌, ◌↔◌, ℕ, ◌≤◌, Bool, IsTrue, List, [], Option, IsErr, OnErr};
ghost use Rattle.cl_io.specs.{Counts.counted, Sink.{MayTake, MayWrite}};

use crate::{SinkFault, WriteFault};

/// A destination for text.
pub trait Sink {
    /// All bytes that were written to it, if it tells that.
    ghost written: { Self → Option (List ℕ) };

    /// How often a write has failed. The count never falls, and at the greatest `u64` it stays
    /// there.
    ghost faults: { Self → ℕ };

    /// Whether the last write failed. A sink whose writes can fail keeps it: false until the first
    /// write, and after each write whether that one failed.
    ghost last_failed: { Self → Bool };

    /// Writes the first bytes of a piece and returns how many: at least one, if the piece isn't
    /// empty.
    ///
    /// `Failed` comes only where the count of faults rose in this call, by exactly one, or was at
    /// the greatest `u64` already. Nothing was written then. Where bytes were written, the count is
    /// as it was. Whatever the answer, a sink that tells what was written goes on telling it.
    fn write(&mut self, piece: &[u8]) -> Result<usize, SinkFault>
        ensures faults { faults self.old ≤ faults self.new }
        ensures answer { MayTake piece.now (faults self.old) (faults self.new) (written self.old) (written self.new) result }
        ensures one_more { OnErr result (faults self.new ≡ counted (faults self.old)) }
        ensures last { IsTrue (last_failed self.new) ↔ IsErr result };
}

/// Writes a whole piece, with as many writes as the sink needs, none for an empty piece. Takes no
/// memory.
///
/// `Failed` comes only where the sink's count of faults rose in this call, by exactly one, or was
/// at the greatest `u64` already. The sink has then taken exactly the first `written` bytes, fewer
/// than the piece has, and isn't called again: one write failed, and it was the last. Where the
/// piece was written whole, no write failed and the count is as it was.
pub fn write_all<K: Sink>(sink: &mut K, piece: &[u8]) -> Result<(), WriteFault>
    ensures faults { K.faults sink.old ≤ K.faults sink.new }
    ensures answer { MayWrite piece.now (K.faults sink.old) (K.faults sink.new) (K.written sink.old) (K.written sink.new) result }
    ensures one_more { OnErr result (K.faults sink.new ≡ counted (K.faults sink.old)) }
    ensures last { OnErr result (IsTrue (K.last_failed sink.new)) }
    ensures untouched { piece.now ≡ [] → sink.new ≡ sink.old }
{
    let mut written = 0;
    while written < piece.len() {
        match sink.write(&piece[written..]) {
            Ok(taken) => written += taken,
            Err(SinkFault::Failed) => {
                return Err(WriteFault::Failed {
                    written: written as u64,
                });
            }
        }
    }
    Ok(())
}
