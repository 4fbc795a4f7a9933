//! The number of executions of runnables that is counted for a simulation. Times are in ticks.
ghost use Rattle.std.specs.Prelude.{◌≡◌, ◌+◌, ◌*◌, ◌^◌, ◌<◌, ◌≤◌, length};
ghost use Rattle.cl_model.specs.{declared.stimulus.StimulusKind.TheVariants.Burst, Ranges.IsKindInRange, Timing.IsKindOrdered, Validity.IsValid};
ghost use Rattle.cl_runs.specs.{TaskTiming.timing_at, SystemOf.system_of};
ghost use Rattle.cl_gen.specs.Count.{arrival_count, task_executions, execution_count, executions_of, executions_on};

use crate::limits::MOST_RUN_TICKS;
use crate::marks::is_among;
use cl_model::{StimulusKind, ValidModel};

/// Counts the jobs of bursts that arrive in the first `ticks` ticks: those of the whole periods
/// from the offset on, and those of one burst in the ticks that are left.
fn burst_arrivals(period: u64, offset: u64, count: u64, distance: u64, ticks: u64) -> u64
    requires range { IsKindInRange (Burst period offset count distance) }
    requires ordered { IsKindOrdered (Burst period offset count distance) }
    requires ticks { ticks ≤ MOST_RUN_TICKS }
    ensures count { result ≡ arrival_count (Burst period offset count distance) ticks }
    ensures few { result ≤ ticks }
{
    let width = ticks.saturating_sub(offset);
    let rest = width % period;
    width / period * count + count.min(rest.div_ceil(distance))
}

/// Counts the jobs of a task that can arrive in the first `ticks` ticks, with each gap the least.
#[tactic(auto, unfolding(crate::specs::Count::arrival_count))]
fn arrival_count(pattern: StimulusKind, ticks: u64) -> u64
    requires range { IsKindInRange pattern }
    requires ordered { IsKindOrdered pattern }
    requires ticks { ticks ≤ MOST_RUN_TICKS }
    ensures count { result ≡ arrival_count pattern ticks }
    ensures few { result ≤ ticks }
{
    match pattern {
        StimulusKind::Periodic { period, offset, .. } => {
            ticks.saturating_sub(offset).div_ceil(period)
        }
        StimulusKind::Sporadic { least, .. } => ticks.div_ceil(least),
        StimulusKind::Burst {
            period,
            offset,
            count,
            distance,
        } => burst_arrivals(period, offset, count, distance, ticks),
    }
}

/// Counts the executions of a task: its runnables times the jobs that are counted.
#[tactic(auto, unfolding(crate::specs::Count::task_executions))]
fn task_executions(model: &ValidModel, task: u32, ticks: u64) -> u64
    requires task { task < length model.now.tasks }
    requires ticks { ticks ≤ MOST_RUN_TICKS }
    ensures count { result ≡ task_executions ticks (timing_at (system_of model.now) task) }
    ensures few { result ≤ 2 ^ 40 }
{
    let runnables = model.task(task).runnables.len();
    runnables as u64 * arrival_count(model.stimulus_of(task), ticks)
}

/// Counts the executions of all tasks.
pub(crate) fn execution_count(model: &ValidModel, ticks: u64) -> u64
    requires { ticks ≤ MOST_RUN_TICKS }
    ensures count { result ≡ execution_count model.now ticks }
    ensures valid { IsValid model.now }
{
    let mut count = 0;
    for task in 0..model.tasks() {
        count += task_executions(model, task, ticks);
    }
    count
}

/// Counts the executions of a task if its core is among `cores`, and none else.
fn executions_of(model: &ValidModel, task: u32, ticks: u64, cores: &[bool]) -> u64
    requires task { task < length model.now.tasks }
    requires ticks { ticks ≤ MOST_RUN_TICKS }
    ensures count { result ≡ executions_of ticks cores.now (timing_at (system_of model.now) task) }
    ensures few { result ≤ 2 ^ 40 }
{
    if is_among(cores, model.core_of(task)) {
        return task_executions(model, task, ticks);
    }
    0
}

/// Counts the executions of runnables that a job table of `ticks` ticks of the tasks of some cores
/// may have. The cores are marked by their numbers. Each gap between arrivals is counted as the
/// least, so no such table has more.
pub fn count_executions(model: &ValidModel, ticks: u64, cores: &[bool]) -> u64
    requires { ticks ≤ MOST_RUN_TICKS }
    ensures { result ≡ executions_on model.now ticks cores.now }
{
    let mut count = 0;
    for task in 0..model.tasks() {
        count += executions_of(model, task, ticks, cores);
    }
    count
}
