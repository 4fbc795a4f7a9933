//! The execution times of a job. Times are in ticks.
ghost use Rattle.std.specs.Prelude.{◌≡◌, [], ◌∷◌, ◌++◌, OnOk, OnErr};

use cl_time::NoMemory;
use smallvec::SmallVec;
use std::alloc::Global;
use std::marker::Model;

/// How many times are kept in the job itself. More are kept in a list of their own: most tasks have
/// few runnables, and a run has many jobs.
const FEW_TIMES: usize = 3;

/// The execution time of each runnable of a job, in order, in ticks.
#[derive(Drop)]
pub struct Times {
    times: SmallVec<u64, FEW_TIMES>,
}

impl Model for Times {
    ghost use Rattle.std.specs.Prelude.{List, ℕ};

    ghost Value = { List ℕ };

    ghost view = { λ times. times.times.items };
}

impl Times {
    /// Creates an empty list of times. Takes no memory.
    pub fn new(alloc: Global) -> Times
        ensures { result ≡ [] }
    {
        Times {
            times: SmallVec::new(alloc),
        }
    }

    /// Appends a time. After `NoMemory` the times are as they were.
    #[inline(always)]
    pub fn push(&mut self, time: u64) -> Result<(), NoMemory>
        ensures ok { OnOk result (self.new ≡ self.old ++ time ∷ []) }
        ensures err { OnErr result (self.new ≡ self.old) }
    {
        self.times.push(time)?;
        Ok(())
    }

    /// Returns the times in order.
    pub fn as_slice(&self) -> &[u64]
        ensures { result.now ≡ self.now }
    {
        self.times.as_slice()
    }
}
