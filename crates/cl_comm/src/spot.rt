//! Where a runnable stands in its task, and its window.
ghost use Rattle.std.specs.Prelude.{◌≡◌, ◌^◌, ◌<◌, length, sum_by};
ghost use Rattle.cl_model.specs.{declared.task.RunnableDef.RunnableDef, ByNumber.task_at};
ghost use Rattle.cl_runs.specs.{SystemOf.system_of, TaskTiming.timing_at};
ghost use Rattle.cl_comm.specs.Windows.{spot_at};

use cl_model::{RunnableDef, ValidModel};

/// Where a runnable stands in its task. Times are in ticks.
#[derive(Clone, Copy, PartialEq, Eq)]
pub struct Spot {
    /// The sum of the least times of the runnables before it.
    pub before: u64,
    /// Its own least time.
    pub own: u64,
    /// The sum of the least times of the runnables after it.
    pub after: u64,
    /// The deadline of its task, from arrival.
    pub deadline: u64,
}

/// When a runnable reads and writes, in ticks from the arrival of its job.
#[derive(Clone, Copy, Debug, PartialEq, Eq)]
pub struct Window {
    /// The lower bound on when it reads.
    pub rlo: u64,
    /// The lower bound on when it writes.
    pub wlo: u64,
    /// The upper bound on when it writes.
    pub whi: u64,
}

/// Returns the runnables of a task of a valid model, in the order in which a job executes them.
/// Their least times sum up to less than 2^64.
fn runnables_of(model: &ValidModel, task: u32) -> &[RunnableDef]
    requires { task < length model.now.tasks }
    ensures runnables { result.now ≡ (task_at model.now task).runnables }
    ensures fits { sum_by (λ (runnable : RunnableDef). runnable.least) result.now < 2 ^ 64 }
{
    model.task(task).runnables.as_slice()
}

/// Sums the least times of runnables.
fn least_times(runnables: &[RunnableDef]) -> u64
    requires { sum_by (λ (runnable : RunnableDef). runnable.least) runnables.now < 2 ^ 64 }
    ensures { result ≡ sum_by (λ (runnable : RunnableDef). runnable.least) runnables.now }
{
    runnables.iter().map(|runnable| runnable.least).sum()
}

/// Finds the spot of a runnable of a valid model, given by the number of its task and its place in
/// the task, in one pass over the runnables of the task. Takes no memory.
pub fn spot_of(model: &ValidModel, task: u32, place: u32) -> Spot
    requires is_task { task < length model.now.tasks }
    requires is_runnable { place < length (task_at model.now task).runnables }
    ensures { result ≡ spot_at (timing_at (system_of model.now) task) place }
{
    let runnables = runnables_of(model, task);
    let place = place as usize;
    Spot {
        before: least_times(&runnables[..place]),
        own: runnables[place].least,
        after: least_times(&runnables[place + 1..]),
        deadline: model.deadline_of(task),
    }
}
