//! The leads of the runnables of a valid model. Times are in ticks.
ghost use Rattle.std.specs.Prelude.{◌≡◌, ℕ, ◌*◌, ◌^◌, ◌<◌, ◌≤◌, length, Some, IfSome, sum_by, All};
ghost use Rattle.cl_model.specs.{declared.{limits.TheConstants.{MOST_TICKS, MOST_RUNNABLES}, task.RunnableDef.RunnableDef}, ByNumber.{task_at, core_of, stimulus_of, tasks_of_core}, Validity.IsValid};
ghost use Rattle.cl_runs.specs.{SystemOf.system_of, TaskTiming.timing_at};
ghost use Rattle.cl_stim.specs.Phase.{IsPhaseInRange, phase_of};
ghost use Rattle.cl_comm.specs.Windows.{least_times};
ghost use Rattle.cl_cycle.specs.Cycles.{is_one_of, in_phase_above, cycle_of};
ghost use Rattle.cl_lead.specs.{Ahead.least_lead, Leads.{before_read, ahead_of, lead_at}, Inner.Sure.{sure_time, time_if, time_of_other, is_sure, counted_time, ahead_in, IsSureTaskInRange, IsWorkInRange}};

use crate::sure::{SureTask, SureWork};
use arrayvec::ArrayVec;
use cl_comm::spot_of;
use cl_cycle::Cycle;
use cl_model::{AccessKind, MOST_TASKS_OF_CORE, RunnableDef, StimulusKind, ValidModel};
use cl_stim::Phase;

/// Returns the least times before a read, of those before its runnable.
fn before_read(access: AccessKind, before: u64) -> u64
    ensures { result ≡ before_read access before }
{
    match access {
        AccessKind::Explicit => before,
        AccessKind::Implicit => 0,
        AccessKind::Timed => 0,
    }
}

/// Sums the least times of runnables.
fn sum_of_least(runnables: &[RunnableDef]) -> u64
    requires { sum_by (λ (runnable : RunnableDef). runnable.least) runnables.now < 2 ^ 64 }
    ensures { result ≡ sum_by (λ (runnable : RunnableDef). runnable.least) runnables.now }
{
    runnables.iter().map(|runnable| runnable.least).sum()
}

/// Computes the least execution time of a job of a task.
fn least_time(model: &ValidModel, task: u32) -> u64
    requires { task < length model.now.tasks }
    ensures time { result ≡ least_times (timing_at (system_of model.now) task).ranges }
    ensures small { result ≤ MOST_RUNNABLES * MOST_TICKS }
{
    sum_of_least(model.task(task).runnables.as_slice())
}

/// Checks whether another task of the core has a higher priority than this one and is in phase.
fn is_sure(model: &ValidModel, task: u32, other: u32, cycle: &Cycle) -> bool
    requires task { task < length model.now.tasks }
    requires other { other < length model.now.tasks }
    ensures { result ≡ is_sure model.now task cycle.now.in_phase.items other }
{
    model.task(other).priority > model.task(task).priority && cycle.has(other)
}

/// Returns a task as its jobs are surely released, if it is periodic.
fn sure_task(model: &ValidModel, other: u32) -> Option<SureTask>
    requires valid { IsValid model.now }
    requires other { other < length model.now.tasks }
    ensures time { (from width : ℕ)
        → time_if from width result ≡ time_of_other model.now from width other }
    ensures in_range { IfSome result IsSureTaskInRange }
{
    match model.stimulus_of(other) {
        StimulusKind::Periodic {
            period,
            offset,
            jitter,
        } => Some(SureTask {
            phase: Phase {
                period,
                offset,
                count: 1,
                distance: period,
            },
            jitter,
            time: least_time(model, other),
        }),
        _ => None,
    }
}

/// Lists the periodic tasks in phase above a task.
fn all_sure(model: &ValidModel, task: u32, cycle: &Cycle) -> ArrayVec<SureTask, MOST_TASKS_OF_CORE>
    requires valid { IsValid model.now }
    requires task { task < length model.now.tasks }
    ensures time { (from width : ℕ) → sum_by (sure_time from width) result.items
        ≡ sum_by (counted_time model.now task cycle.now.in_phase.items from width)
        (tasks_of_core model.now (core_of model.now task)) }
    ensures in_range { All IsSureTaskInRange result.items }
{
    let mut above = ArrayVec::new();
    for other in model.tasks_of_core(model.core_of(task)) {
        if is_sure(model, task, *other, cycle) {
            if let Some(sure) = sure_task(model, *other) {
                above.push(sure);
            }
        }
    }
    above
}

/// Puts together what runs ahead of a runnable with such least times before it.
fn ahead_of(model: &ValidModel, task: u32, before: u64, arrivals: Phase) -> SureWork
    requires valid { IsValid model.now }
    requires task { task < length model.now.tasks }
    requires arrivals { phase_of (stimulus_of model.now task) ≡ Some arrivals }
    requires in_range { IsPhaseInRange arrivals }
    ensures in_range { IsWorkInRange result }
    ensures lead { least_lead (ahead_in result)
        ≡ least_lead (ahead_of (system_of model.now)
        (is_one_of (in_phase_above (system_of model.now) task))
        (cycle_of (system_of model.now) task) task before) }
{
    let cycle = Cycle::of(model, task);
    SureWork {
        arrivals,
        cycle: cycle.ticks(),
        before,
        deadline: model.deadline_of(task),
        above: all_sure(model, task, &cycle),
    }
}

/// Finds the lead of a runnable of a valid model, given by the number of its task and its place in
/// the task: it reads so long after the arrival of its job at least, in every legal run. Takes no
/// memory.
///
/// Its time grows with the arrivals in the cycle of the task times those of the tasks above that
/// are in phase between two of them.
pub fn lead_of(model: &ValidModel, task: u32, place: u32) -> u64
    requires is_task { task < length model.now.tasks }
    requires is_runnable { place < length (task_at model.now task).runnables }
    ensures { result ≡ lead_at (system_of model.now) task place }
{
    let access = model.task(task).access;
    let before = before_read(access, spot_of(model, task, place).before);
    if access.is_timed() {
        return before;
    }
    match Phase::of(model.stimulus_of(task)) {
        Some(arrivals) => ahead_of(model, task, before, arrivals).lead(),
        None => before,
    }
}
