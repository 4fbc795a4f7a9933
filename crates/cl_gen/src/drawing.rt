//! Drawing job tables. Times are in ticks.
ghost use Rattle.std.specs.Prelude.{◌≡◌, ◌+◌, ◌<◌, ◌≤◌, ◌^◌, length, map, All, IfOk, OnOk};
ghost use Rattle.cl_model.specs.{declared.task.RunnableDef.RunnableDef, Ranges.{IsKindInRange, IsRunnableInRange}, Timing.IsKindOrdered};
ghost use Rattle.cl_runs.specs.{TaskTiming.timing_at, SystemOf.{range_of, system_of}};
ghost use Rattle.cl_gen.specs.{Words.word_of, Drawn.{arrival_words, release_words, first_drawn_arrival, gap_after, release_delay, drawn_times, drawn_jobs, word_after, drawn_tasks}, Inner.Arriving.job_arriving};

use crate::draws::Draws;
use crate::limits::MOST_RUN_TICKS;
use cl_model::{List, MOST_RUNNABLES, RunnableDef, StimulusKind, ValidModel};
use cl_runs::{Job, Times};
use cl_time::NoMemory;
use std::alloc::Global;

/// Draws when the first job arrives. Only a sporadic pattern takes a word for it.
fn first_arrival(draws: &mut Draws, pattern: StimulusKind) -> u64
    requires range { IsKindInRange pattern }
    requires few { draws.old.words < 2 ^ 63 }
    ensures drawn { result ≡ first_drawn_arrival pattern (word_of draws.old.seed draws.old.words) }
    ensures taken { draws.new ≡ record draws.old { words = draws.old.words + arrival_words pattern } }
{
    match pattern {
        StimulusKind::Periodic { offset, .. } | StimulusKind::Burst { offset, .. } => offset,
        StimulusKind::Sporadic { greatest, .. } => draws.draw(0, greatest - 1),
    }
}

/// Draws how many ticks after a job, given by its number, the next one arrives. Only a sporadic
/// pattern takes a word for it.
fn gap_after(draws: &mut Draws, pattern: StimulusKind, job: u64) -> u64
    requires range { IsKindInRange pattern }
    requires ordered { IsKindOrdered pattern }
    requires few { draws.old.words < 2 ^ 63 }
    ensures drawn { result ≡ gap_after pattern job (word_of draws.old.seed draws.old.words) }
    ensures taken { draws.new ≡ record draws.old { words = draws.old.words + arrival_words pattern } }
{
    match pattern {
        StimulusKind::Periodic { period, .. } => period,
        StimulusKind::Sporadic { least, greatest } => draws.draw(least, greatest),
        StimulusKind::Burst {
            count,
            distance,
            ..
        } => {
            if job % count + 1 < count {
                distance
            } else {
                pattern.greatest_distance()
            }
        }
    }
}

/// Draws how many ticks after its arrival a job is released. Only a periodic pattern takes a word
/// for it.
fn release_delay(draws: &mut Draws, pattern: StimulusKind) -> u64
    requires range { IsKindInRange pattern }
    requires few { draws.old.words < 2 ^ 63 }
    ensures drawn { result ≡ release_delay pattern (word_of draws.old.seed draws.old.words) }
    ensures taken { draws.new ≡ record draws.old { words = draws.old.words + release_words pattern } }
{
    match pattern {
        StimulusKind::Periodic { jitter, .. } => draws.draw(0, jitter),
        StimulusKind::Sporadic { .. } | StimulusKind::Burst { .. } => 0,
    }
}

/// Draws the execution time of each runnable of a job, a word for each.
fn draw_times(
    alloc: Global,
    draws: &mut Draws,
    runnables: &[RunnableDef],
) -> Result<Times, NoMemory>
    requires range { All IsRunnableInRange runnables.now }
    requires ordered { All
        (λ (runnable : RunnableDef). runnable.least ≤ runnable.greatest) runnables.now }
    requires few { draws.old.words + length runnables.now < 2 ^ 63 }
    ensures drawn { IfOk result
        (λ times. times ≡ drawn_times (word_of draws.old.seed) draws.old.words (map range_of runnables.now)) }
    ensures taken { OnOk result
        (draws.new ≡ record draws.old { words = draws.old.words + length runnables.now }) }
{
    let mut times = Times::new(alloc);
    for runnable in runnables {
        times.push(draws.draw(runnable.least, runnable.greatest))?;
    }
    Ok(times)
}

/// Draws a job that arrives at a given tick.
fn draw_job(
    alloc: Global,
    draws: &mut Draws,
    pattern: StimulusKind,
    runnables: &[RunnableDef],
    arrival: u64,
) -> Result<Job, NoMemory>
    requires kind { IsKindInRange pattern }
    requires range { All IsRunnableInRange runnables.now }
    requires ordered { All
        (λ (runnable : RunnableDef). runnable.least ≤ runnable.greatest) runnables.now }
    requires early { arrival < MOST_RUN_TICKS }
    requires few { draws.old.words + 1 + length runnables.now < 2 ^ 63 }
    ensures drawn { IfOk result (λ job. job
        ≡ job_arriving (word_of draws.old.seed) draws.old.words pattern (map range_of runnables.now) arrival) }
    ensures taken { OnOk result
        (draws.new ≡ record draws.old { words = draws.old.words + release_words pattern + length runnables.now }) }
{
    let release = arrival + release_delay(draws, pattern);
    let times = draw_times(alloc, draws, runnables)?;
    Ok(Job {
        arrival,
        release,
        times,
    })
}

/// Draws the jobs of a task that arrive in the first `ticks` ticks.
fn draw_jobs(
    alloc: Global,
    draws: &mut Draws,
    pattern: StimulusKind,
    runnables: &[RunnableDef],
    ticks: u64,
) -> Result<List<Job>, NoMemory>
    requires kind { IsKindInRange pattern }
    requires kind_ordered { IsKindOrdered pattern }
    requires range { All IsRunnableInRange runnables.now }
    requires ordered { All
        (λ (runnable : RunnableDef). runnable.least ≤ runnable.greatest) runnables.now }
    requires count { length runnables.now ≤ MOST_RUNNABLES }
    requires ticks { ticks ≤ MOST_RUN_TICKS }
    requires few { draws.old.words < 2 ^ 62 }
    ensures drawn { IfOk result (λ jobs. jobs
        ≡ drawn_jobs (word_of draws.old.seed) draws.old.words pattern (map range_of runnables.now) ticks) }
    ensures taken { OnOk result (draws.new
        ≡ record draws.old { words = word_after (word_of draws.old.seed) draws.old.words pattern (map range_of runnables.now) ticks }) }
    ensures few { OnOk result (draws.new.words ≤ draws.old.words + 2 ^ 40) }
{
    let mut jobs = List::new(alloc);
    let mut arrival = first_arrival(draws, pattern);
    while arrival < ticks {
        let job = jobs.len() as u64;
        jobs.push(draw_job(alloc, draws, pattern, runnables, arrival)?)?;
        arrival += gap_after(draws, pattern, job);
    }
    Ok(jobs)
}

/// Draws the jobs of a task, given by its number, that arrive in the first `ticks` ticks.
fn draw_task(
    alloc: Global,
    draws: &mut Draws,
    model: &ValidModel,
    task: u32,
    ticks: u64,
) -> Result<List<Job>, NoMemory>
    requires task { task < length model.now.tasks }
    requires ticks { ticks ≤ MOST_RUN_TICKS }
    requires few { draws.old.words < 2 ^ 62 }
    ensures drawn { IfOk result (λ jobs. let timing = timing_at (system_of model.now) task in
        jobs ≡ drawn_jobs (word_of draws.old.seed) draws.old.words timing.pattern timing.ranges ticks) }
    ensures taken { OnOk result (let timing = timing_at (system_of model.now) task in
        draws.new ≡ record draws.old { words = word_after (word_of draws.old.seed) draws.old.words timing.pattern timing.ranges ticks }) }
    ensures few { OnOk result (draws.new.words ≤ draws.old.words + 2 ^ 40) }
{
    let runnables = model.task(task).runnables.as_slice();
    draw_jobs(alloc, draws, model.stimulus_of(task), runnables, ticks)
}

/// Draws the jobs of each task that arrive in the first `ticks` ticks, in file order.
pub(crate) fn draw_tasks(
    alloc: Global,
    draws: &mut Draws,
    model: &ValidModel,
    ticks: u64,
) -> Result<List<List<Job>>, NoMemory>
    requires ticks { ticks ≤ MOST_RUN_TICKS }
    requires all { draws.old.words ≡ 0 }
    ensures { IfOk result
        (λ jobs. jobs ≡ drawn_tasks (word_of draws.old.seed) ticks 0 (system_of model.now).tasks) }
{
    let mut jobs = List::new(alloc);
    for task in 0..model.tasks() {
        jobs.push(draw_task(alloc, draws, model, task, ticks)?)?;
    }
    Ok(jobs)
}
