//! Copies that may need memory.
ghost use Rattle.std.specs.Prelude.{◌≡◌, IfOk};

use cl_time::NoMemory;
use std::alloc::Global;

/// A type whose values can be copied as long as there is memory.
pub trait TryCopy {
    /// Copies the value, or fails with `NoMemory` where memory runs out.
    fn try_copy(&self, alloc: Global) -> Result<Self, NoMemory>
        ensures { IfOk result (λ copy. copy ≡ self.now) };
}
