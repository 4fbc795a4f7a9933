//! Why a run isn't accepted.
use cl_time::NoMemory;

/// A rule that legal runs keep.
#[derive(Clone, Copy, Debug, PartialEq, Eq)]
pub enum Rule {
    /// A job arrives as the stimulus of its task says, and within the ticks of the run.
    Arrival,
    /// A job is released at its arrival or at most the jitter later.
    Release,
    /// Each execution time lies in the range of its runnable.
    Time,
    /// No further job of a task is due in the ticks of the run.
    Missing,
    /// A core executes in each tick what is scheduled.
    Schedule,
}

/// Why a run isn't accepted.
#[derive(Clone, Copy, PartialEq, Eq)]
pub enum RunFault {
    /// The run isn't legal. `rule` is the first broken rule, and `place` is the number of a task,
    /// or of a core for `Schedule`. `tick` is the arrival of the job, the latest tick at which the
    /// missing job is due, or the first tick in which the core doesn't execute what is scheduled.
    Illegal { rule: Rule, place: u32, tick: u64 },
    /// Memory ran out.
    NoMemory,
}

impl From<NoMemory> for RunFault {
    ghost use Rattle.std.specs.Prelude.{◌≡◌};
    ghost use Rattle.cl_check.specs.declared.run_fault.RunFault.TheVariants.{NoMemory};

    ghost from_gives = { λ _ fault. fault ≡ NoMemory };

    fn from(_: NoMemory) -> RunFault {
        RunFault::NoMemory
    }
}
