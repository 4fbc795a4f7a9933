//! How much of runs may be made for one answer.
ghost use Rattle.std.specs.Prelude.{◌≡◌, ◌+◌, ◌<◌, true, false};
ghost use Rattle.cl_near.specs.declared.budget.TheConstants.{MOST_EXECUTIONS_OF_RUNS};

/// The most executions of runnables of all runs that are made for one answer.
pub const MOST_EXECUTIONS_OF_RUNS: u64 = 8_000_000;

/// How many executions may still be made.
#[derive(Clone, Copy, PartialEq, Eq)]
pub struct Budget {
    left: u64,
}

impl Budget {
    /// Starts with all that may be made for one answer.
    pub fn new() -> Budget
        ensures { result.left ≡ MOST_EXECUTIONS_OF_RUNS }
    {
        Budget {
            left: MOST_EXECUTIONS_OF_RUNS,
        }
    }

    /// Takes so many executions off, if they are left. Returns whether they were.
    pub fn take(&mut self, count: u64) -> bool
        ensures taken { result ≡ true → self.new.left + count ≡ self.old.left }
        ensures passed { result ≡ false → self.old.left < count }
        ensures left { result ≡ false → self.new ≡ self.old }
    {
        if count > self.left {
            return false;
        }
        self.left -= count;
        true
    }
}
