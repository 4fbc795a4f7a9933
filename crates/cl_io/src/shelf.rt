ghost use Rattle.std.specs.Prelude.{List, ℕ};
ghost use Rattle.cl_io.specs.{Counts.RisesAlone, Names.SameAtEach, Shelf.{Held, MayAnswer}};

use crate::FetchFault;
use std::alloc::Global;

/// A source of files. For each name a shelf keeps two numbers that never fall: how often a fetch of
/// that name has failed, and the most bytes that one fetch of it took.
pub trait Shelf {
    /// What the shelf holds under a name, if it tells that.
    ghost held: { Self → List ℕ → Held };

    /// How often a fetch of the name has failed. A count at the greatest `u64` stays there.
    ghost faults: { Self → List ℕ → ℕ };

    /// The most bytes that one fetch of the name took.
    ghost longest: { Self → List ℕ → ℕ };

    /// Reads all bytes of the file under a name, if they are at most `limit`.
    ///
    /// `Failed` comes only where the name's count of faults rose in this call, or was at the
    /// greatest `u64` already. `Long` comes where more than `limit` bytes were taken; a shelf that
    /// tells what it holds took no more than the file has, unless the count rose or was at its
    /// greatest. `NoMemory` comes where memory ran out. A fetch that returns bytes leaves the count
    /// as it was. The most bytes that one fetch took rises to those of this one, if they are more,
    /// and stays after `Failed` and `NoMemory`. Whatever the answer, what the shelf holds stays as
    /// it was, and so do the two numbers of every other name.
    fn fetch(&mut self, alloc: Global, name: &str, limit: u64) -> Result<Vec<u8>, FetchFault>
        ensures same { SameAtEach (held self.old) (held self.new) }
        ensures faults { RisesAlone name.now (faults self.old) (faults self.new) }
        ensures longest { RisesAlone name.now (longest self.old) (longest self.new) }
        ensures answer { MayAnswer (held self.old name.now) limit
            (record { faults = faults self.old name.now; longest = longest self.old name.now })
            (record { faults = faults self.new name.now; longest = longest self.new name.now }) result };
}
