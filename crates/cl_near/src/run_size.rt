//! Whether a run is too long to be made. Times are in ticks.
ghost use Rattle.cl_near.specs.RunSizes.{IsSizeOfRun};

use cl_gen::{MOST_EXECUTIONS, MOST_RUN_TICKS, count_executions};
use cl_model::ValidModel;

/// How large a run is.
#[derive(Clone, Copy, PartialEq, Eq)]
pub enum RunSize {
    /// It has more than `MOST_RUN_TICKS` ticks.
    TooLong,
    /// It may have more than `MOST_EXECUTIONS` executions of runnables: `count` are counted.
    TooMany { count: u64 },
    /// It is small enough, with at most `count` executions.
    Fits { count: u64 },
}

/// Finds how large the run of some cores is that lasts so many ticks. The cores are marked by their
/// numbers.
pub fn size_of_run(model: &ValidModel, ticks: u64, cores: &[bool]) -> RunSize
    ensures { IsSizeOfRun model.now ticks cores.now result }
{
    if ticks > MOST_RUN_TICKS {
        return RunSize::TooLong;
    }
    let count = count_executions(model, ticks, cores);
    if count > MOST_EXECUTIONS {
        RunSize::TooMany { count }
    } else {
        RunSize::Fits { count }
    }
}
