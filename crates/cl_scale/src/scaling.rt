//! Copies of a model whose greatest execution times are scaled. Times are in ticks.
ghost use Rattle.std.specs.Prelude.{◌≡◌, ◌≤◌, map, IfOk, All};
ghost use Rattle.cl_model.specs.Ranges.{IsRunnableInRange, IsTaskInRange, IsInRange};
ghost use Rattle.cl_scale.specs.Scaled.{scaled_time, scaled_runnable, scaled_task, scaled};

use crate::percent::MOST_PERCENT;
use cl_model::{List, MOST_TICKS, RunnableDef, SystemModel, TaskDef, TryCopy};
use cl_time::NoMemory;
use std::alloc::Global;

/// Scales a greatest time by a percentage, rounded down, but to no less than the least time.
pub fn scaled_time(percent: u64, least: u64, greatest: u64) -> u64
    requires percent { percent ≤ MOST_PERCENT }
    requires greatest { greatest ≤ MOST_TICKS }
    ensures { result ≡ scaled_time percent least greatest }
{
    least.max(greatest * percent / 100)
}

/// Copies a runnable and scales its greatest time.
fn scaled_runnable(
    alloc: Global,
    runnable: &RunnableDef,
    percent: u64,
) -> Result<RunnableDef, NoMemory>
    requires percent { percent ≤ MOST_PERCENT }
    requires in_range { IsRunnableInRange runnable.now }
    ensures { IfOk result (λ copy. copy ≡ scaled_runnable percent runnable.now) }
{
    Ok(RunnableDef {
        name: runnable.name.copy(),
        least: runnable.least,
        greatest: scaled_time(percent, runnable.least, runnable.greatest),
        whole: runnable.whole,
        reads: runnable.reads.try_copy(alloc)?,
        writes: runnable.writes.try_copy(alloc)?,
    })
}

/// Copies runnables and scales their greatest times.
fn scaled_runnables(
    alloc: Global,
    runnables: &[RunnableDef],
    percent: u64,
) -> Result<List<RunnableDef>, NoMemory>
    requires percent { percent ≤ MOST_PERCENT }
    requires in_range { All IsRunnableInRange runnables.now }
    ensures { IfOk result (λ copies. copies ≡ map (scaled_runnable percent) runnables.now) }
{
    let mut copies = List::new(alloc);
    for runnable in runnables {
        copies.push(scaled_runnable(alloc, runnable, percent)?)?;
    }
    Ok(copies)
}

/// Copies a task and scales the greatest times of its runnables.
fn scaled_task(alloc: Global, task: &TaskDef, percent: u64) -> Result<TaskDef, NoMemory>
    requires percent { percent ≤ MOST_PERCENT }
    requires in_range { IsTaskInRange task.now }
    ensures { IfOk result (λ copy. copy ≡ scaled_task percent task.now) }
{
    Ok(TaskDef {
        name: task.name.copy(),
        core: task.core.copy(),
        stimulus: task.stimulus.copy(),
        priority: task.priority,
        access: task.access,
        deadline: task.deadline,
        runnables: scaled_runnables(alloc, task.runnables.as_slice(), percent)?,
    })
}

/// Copies tasks and scales the greatest times of their runnables.
fn scaled_tasks(alloc: Global, tasks: &[TaskDef], percent: u64) -> Result<List<TaskDef>, NoMemory>
    requires percent { percent ≤ MOST_PERCENT }
    requires in_range { All IsTaskInRange tasks.now }
    ensures { IfOk result (λ copies. copies ≡ map (scaled_task percent) tasks.now) }
{
    let mut copies = List::new(alloc);
    for task in tasks {
        copies.push(scaled_task(alloc, task, percent)?)?;
    }
    Ok(copies)
}

/// Copies a model and scales the greatest times of all runnables.
#[tactic(auto, unfolding(crate::specs::Scaled::scaled))]
pub fn scaled(alloc: Global, model: &SystemModel, percent: u64) -> Result<SystemModel, NoMemory>
    requires percent { percent ≤ MOST_PERCENT }
    requires in_range { IsInRange model.now }
    ensures { IfOk result (λ copy. copy ≡ scaled model.now percent) }
{
    Ok(SystemModel {
        cores: model.cores.try_copy(alloc)?,
        stimuli: model.stimuli.try_copy(alloc)?,
        labels: model.labels.try_copy(alloc)?,
        tasks: scaled_tasks(alloc, model.tasks.as_slice(), percent)?,
        chains: model.chains.try_copy(alloc)?,
        requirements: model.requirements.try_copy(alloc)?,
    })
}
