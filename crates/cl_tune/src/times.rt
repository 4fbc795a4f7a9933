//! The times of tasks with scaled greatest execution times. Times are in ticks.
ghost use Rattle.std.specs.Prelude.{◌≡◌, ◌≤◌, true, length, map, sum_by, IfOk, All};
ghost use Rattle.std.specs.List.{list_all};
ghost use Rattle.cl_model.specs.{Holds.greatest_by, Ranges.{IsRunnableInRange, IsTaskInRange}};
ghost use Rattle.cl_tune.specs.Inner.Times.{scaled_greatest, scaled_hold, stays_within, are_within, scaled_times};

use cl_model::{List, MOST_RUNNABLES, MOST_TICKS, RunnableDef, TaskDef};
use cl_scale::{MOST_PERCENT, scaled_time};
use cl_time::NoMemory;
use std::alloc::Global;

/// How long a task may execute, and hold its core, with scaled times.
#[derive(Clone, Copy, PartialEq, Eq)]
pub(crate) struct TaskTimes {
    /// The greatest execution time of a job: the sum of those of its runnables.
    pub(crate) time: u64,
    /// How long a runnable of the task may hold its core once it has begun.
    pub(crate) hold: u64,
}

/// Whether the greatest times of runnables stay in range when they are scaled.
fn runnables_within(runnables: &[RunnableDef], percent: u64) -> bool
    requires percent { percent ≤ MOST_PERCENT }
    requires in_range { All IsRunnableInRange runnables.now }
    ensures { result ≡ list_all (stays_within percent) runnables.now }
{
    let mut within = true;
    for runnable in runnables {
        let greatest = scaled_time(percent, runnable.least, runnable.greatest);
        within = within && greatest <= MOST_TICKS;
    }
    within
}

/// Whether the greatest times of all runnables of tasks stay in range when they are scaled.
pub(crate) fn are_within(tasks: &[TaskDef], percent: u64) -> bool
    requires percent { percent ≤ MOST_PERCENT }
    requires in_range { All IsTaskInRange tasks.now }
    ensures { result ≡ list_all (are_within percent) tasks.now }
{
    let mut within = true;
    for task in tasks {
        within = within && runnables_within(task.runnables.as_slice(), percent);
    }
    within
}

/// Adds up the scaled greatest times of runnables.
fn scaled_sum(runnables: &[RunnableDef], percent: u64) -> u64
    requires percent { percent ≤ MOST_PERCENT }
    requires count { length runnables.now ≤ MOST_RUNNABLES }
    requires in_range { All IsRunnableInRange runnables.now }
    requires within { list_all (stays_within percent) runnables.now ≡ true }
    ensures { result ≡ sum_by (scaled_greatest percent) runnables.now }
{
    let mut sum = 0;
    for runnable in runnables {
        sum += scaled_time(percent, runnable.least, runnable.greatest);
    }
    sum
}

/// How long one of the runnables may hold its core once it has begun, by its scaled greatest time.
fn longest_scaled_hold(runnables: &[RunnableDef], percent: u64) -> u64
    requires percent { percent ≤ MOST_PERCENT }
    requires in_range { All IsRunnableInRange runnables.now }
    ensures { result ≡ greatest_by (scaled_hold percent) runnables.now }
{
    let mut longest = 0;
    for runnable in runnables {
        if runnable.whole {
            let greatest = scaled_time(percent, runnable.least, runnable.greatest);
            longest = longest.max(greatest.saturating_sub(1));
        }
    }
    longest
}

/// Finds the times of all tasks with the greatest times of their runnables scaled, in file order.
pub(crate) fn all_times(
    alloc: Global,
    tasks: &[TaskDef],
    percent: u64,
) -> Result<List<TaskTimes>, NoMemory>
    requires percent { percent ≤ MOST_PERCENT }
    requires in_range { All IsTaskInRange tasks.now }
    requires within { list_all (are_within percent) tasks.now ≡ true }
    ensures { IfOk result (λ times. times ≡ map (scaled_times percent) tasks.now) }
{
    let mut times = List::with_room(alloc, tasks.len())?;
    for task in tasks {
        let runnables = task.runnables.as_slice();
        times.push(TaskTimes {
            time: scaled_sum(runnables, percent),
            hold: longest_scaled_hold(runnables, percent),
        })?;
    }
    Ok(times)
}
