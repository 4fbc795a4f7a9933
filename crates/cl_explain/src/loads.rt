//! How much of the time of a core its tasks take, in millionths.
ghost use Rattle.std.specs.Prelude.{◌≡◌, ◌<◌, ◌≤◌, ◌*◌, ◌^◌, cond, length};
ghost use Rattle.cl_model.specs.{ByNumber.task_at, Validity.IsValid};
ghost use Rattle.cl_runs.specs.SystemOf.{timing_of, system_of};
ghost use Rattle.cl_explain.specs.Loads.{jobs_of_round, ticks_of_round, load_of_round, load_up, load_down, core_load, sure_load};

use cl_model::{StimulusKind, ValidModel};

/// All of the time of a core, in millionths.
pub(crate) const MILLION: u128 = 1_000_000;

/// Returns the greatest number of jobs of a stimulus in one of its rounds.
fn jobs_of_round(kind: StimulusKind) -> u64
    ensures { result ≡ jobs_of_round kind }
{
    match kind {
        StimulusKind::Periodic { .. } | StimulusKind::Sporadic { .. } => 1,
        StimulusKind::Burst { count, .. } => count,
    }
}

/// Returns the length of a round of a stimulus: its period or, where it is sporadic, its least
/// distance between arrivals.
fn ticks_of_round(kind: StimulusKind) -> u64
    ensures { result ≡ ticks_of_round kind }
{
    match kind {
        StimulusKind::Periodic { period, .. } | StimulusKind::Burst { period, .. } => period,
        StimulusKind::Sporadic { least, .. } => least,
    }
}

/// Returns the load of a task at its greatest execution time, in millionths of time, not yet
/// divided by the ticks of a round.
fn load_of_round(model: &ValidModel, task: u32) -> u128
    requires valid { IsValid model.now }
    requires task { task < length model.now.tasks }
    ensures load { result ≡ load_of_round (timing_of model.now (task_at model.now task)) }
    ensures small { result ≤ 2 ^ 100 }
{
    let jobs = jobs_of_round(model.stimulus_of(task));
    u128::from(jobs) * u128::from(model.time_of(task)) * MILLION
}

/// Returns the load of a task at its greatest execution time, in millionths of time, rounded up or
/// down.
fn load_of_task(model: &ValidModel, task: u32, up: bool) -> u128
    requires valid { IsValid model.now }
    requires task { task < length model.now.tasks }
    ensures load { result
        ≡ cond up (load_up (timing_of model.now (task_at model.now task))) (load_down (timing_of model.now (task_at model.now task))) }
    ensures small { result ≤ 2 ^ 101 }
{
    let load = load_of_round(model, task);
    let ticks = u128::from(ticks_of_round(model.stimulus_of(task)));
    if up {
        load.div_ceil(ticks)
    } else {
        load / ticks
    }
}

/// Adds up the loads of the tasks of a core, in millionths of its time, with each task's load
/// rounded up or each rounded down.
pub(crate) fn load_of_core(model: &ValidModel, core: u32, up: bool) -> u128
    requires valid { IsValid model.now }
    requires core { core < length model.now.cores }
    ensures { result ≡ cond up (core_load (system_of model.now) core) (sure_load (system_of model.now) core) }
{
    let mut load = 0;
    for task in model.tasks_of_core(core) {
        load += load_of_task(model, *task, up);
    }
    load
}
