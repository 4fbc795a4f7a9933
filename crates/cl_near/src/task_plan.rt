//! What a run of a task is to be so that one of its jobs comes near to the response. Times are in
//! ticks.
ghost use Rattle.std.specs.Prelude.{◌≡◌, ◌<◌, length, IfOk};
ghost use Rattle.std.specs.Option.{option_map};
ghost use Rattle.cl_model.specs.Validity.{IsValid};
ghost use Rattle.cl_phase.specs.Whole.{LATEST_STEADY};
ghost use Rattle.cl_runs.specs.SystemOf.{system_of};
ghost use Rattle.cl_stim.specs.Integers.{IsIntegerWithin};
ghost use Rattle.cl_resp.specs.{ByPhase.response_by_phase, Response.Response, Worst.IsWorstWindowOf};
ghost use Rattle.cl_near.specs.Plans.{IsPlanOfTask, IsWindowOfRun, IsWindowNear};

use crate::blocker::{Blocker, blocker_of};
use crate::cores::core_alone;
use crate::moments::{Moments, tick_of};
use crate::sporadic::Distances;
use cl_cycle::Cycle;
use cl_model::{List, StimulusKind, ValidModel};
use cl_phase::{steady_from, turns_to_reach};
use cl_resp::{WorstWindow, worst_window};
use cl_time::NoMemory;
use std::alloc::Global;

/// How many of the greatest periods of its core a run lasts longer where a task is blocked, so that
/// the block has time to come.
const PERIODS_FOR_BLOCK: u64 = 16;

/// What a run of a task is to be: how long it lasts, and what its jobs keep to.
#[derive(Drop)]
pub struct TaskPlan {
    pub(crate) task: u32,
    /// How many ticks the run lasts.
    pub(crate) ticks: u64,
    /// The arrival of the job of the worst window.
    pub(crate) arrival: u64,
    /// Where that window begins.
    pub(crate) start: u64,
    /// What is to hold the core when the window begins.
    pub(crate) blocker: Option<Blocker>,
    /// The core of the task alone, marked by its number.
    pub(crate) cores: List<bool>,
    /// When jobs of sporadic tasks are to arrive, by their tasks.
    pub(crate) aims: Moments,
}

/// Checks whether a task stands above another on its core.
pub(crate) fn is_above(model: &ValidModel, other: u32, task: u32) -> bool
    requires other { other < length model.now.tasks }
    requires task { task < length model.now.tasks }
{
    model.core_of(other) == model.core_of(task)
        && model.task(other).priority > model.task(task).priority
}

/// Finds from when on the arrivals of a task and of the tasks in phase above it are those of their
/// phases.
fn steady_together(model: &ValidModel, task: u32, cycle: &Cycle) -> i64
    requires { task < length model.now.tasks }
    ensures valid { IsValid model.now }
    ensures near { IsIntegerWithin LATEST_STEADY result }
{
    // So that it is known that the model is valid.
    let _ = model.plain();
    let mut steady = steady_from(model.stimulus_of(task));
    for other in model.tasks_of_core(model.core_of(task)) {
        if cycle.has(*other) {
            steady = steady_from(model.stimulus_of(*other)).max(steady);
        }
    }
    steady
}

/// Moves a window of a task by whole cycles to where the jobs of a run arrive by their phases.
fn moved(model: &ValidModel, task: u32, window: WorstWindow) -> WorstWindow
    requires task { task < length model.now.tasks }
    requires worst { IsWorstWindowOf (system_of model.now) task window }
    ensures window { IsWindowOfRun (system_of model.now) task result }
    ensures near { IsWindowNear result }
{
    let cycle = Cycle::of(model, task);
    let steady = steady_together(model, task, &cycle);
    let first = window.arrival.min(window.start);
    let ticks = turns_to_reach(first, steady, cycle.ticks());
    WorstWindow {
        arrival: window.arrival + ticks,
        start: window.start + ticks,
    }
}

/// Finds the worst window of a task, given by its number and its response by phases, moved by whole
/// cycles to where the jobs of a run arrive by their phases. `None` stands for a late task.
///
/// `NoMemory` comes where there is no memory for a list of the tasks above; it leaves nothing.
pub fn window_of_run(
    alloc: Global,
    model: &ValidModel,
    task: u32,
    response: Option<u64>,
) -> Result<WorstWindow, NoMemory>
    requires task { task < length model.now.tasks }
    requires response { option_map (λ (settled : Response). settled.response)
        (response_by_phase (system_of model.now) task) ≡ response }
    ensures window { IfOk result (IsWindowOfRun (system_of model.now) task) }
    ensures near { IfOk result IsWindowNear }
{
    let worst = worst_window(alloc, model, task, response)?;
    Ok(moved(model, task, worst))
}

/// Returns the period of a stimulus whose arrivals are fixed, and 0 of another.
fn fixed_period(kind: StimulusKind) -> u64 {
    match kind {
        StimulusKind::Periodic { period, .. } | StimulusKind::Burst { period, .. } => period,
        StimulusKind::Sporadic { .. } => 0,
    }
}

/// Finds the greatest period of the tasks of a core whose arrivals are fixed, 0 where there is none.
fn greatest_period(model: &ValidModel, core: u32) -> u64
    requires { core < length model.now.cores }
{
    let mut greatest = 0;
    for task in model.tasks_of_core(core) {
        greatest = fixed_period(model.stimulus_of(*task)).max(greatest);
    }
    greatest
}

/// Computes how many ticks a run of a task lasts: to the deadline of the job of its worst window and,
/// where the task may be blocked, some periods more.
fn ticks_of_run(model: &ValidModel, task: u32, arrival: u64, blocker: Option<Blocker>) -> u64
    requires task { task < length model.now.tasks }
{
    let deadline = arrival.saturating_add(model.deadline_of(task));
    if blocker.is_none() {
        return deadline;
    }
    let period = greatest_period(model, model.core_of(task));
    deadline.saturating_add(period.saturating_mul(PERIODS_FOR_BLOCK))
}

impl TaskPlan {
    /// Returns how many ticks the run lasts.
    pub fn ticks(&self) -> u64
        ensures { result ≡ self.now.ticks }
    {
        self.ticks
    }

    /// Returns the core of the task alone, marked by its number.
    pub fn cores(&self) -> &[bool]
        ensures { result.now ≡ self.now.cores }
    {
        self.cores.as_slice()
    }

    /// Checks whether a task is the one that is to hold the core.
    pub(crate) fn is_blocker(&self, task: u32) -> bool {
        match self.blocker {
            Some(blocker) => blocker.task == task,
            None => false,
        }
    }

    /// Finds when a job of a task is to arrive, if it is to arrive at some moment.
    fn aim_of(&self, model: &ValidModel, task: u32) -> Option<u64>
        requires task { task < length model.now.tasks }
        requires own { self.now.task < length model.now.tasks }
    {
        if task == self.task {
            return Some(self.arrival);
        }
        if is_above(model, task, self.task) {
            return Some(self.start);
        }
        let blocker = self.blocker?;
        if blocker.task == task {
            self.start.checked_sub(blocker.before.saturating_add(1))
        } else {
            None
        }
    }

    /// Notes when jobs of the sporadic tasks of the core are to arrive.
    fn note_aims(&mut self, model: &ValidModel) -> Result<(), NoMemory>
        requires { self.old.task < length model.now.tasks }
        ensures task { self.new.task ≡ self.old.task }
        ensures cores { self.new.cores ≡ self.old.cores }
    {
        for task in model.tasks_of_core(model.core_of(self.task)) {
            if Distances::of(model.stimulus_of(*task)).is_some() {
                if let Some(aim) = self.aim_of(model, *task) {
                    self.aims.note(*task, aim)?;
                }
            }
        }
        self.aims.put_in_order();
        Ok(())
    }
}

/// Plans a run of a task, given by its number, on its core alone. It aims at a job in the window that
/// `window_of_run` finds; whether one comes so near is seen in the run itself. The response is that
/// by phases; `None` stands for a late task.
///
/// `NoMemory` comes where there is no memory for the plan; it leaves nothing.
pub fn plan_task(
    alloc: Global,
    model: &ValidModel,
    task: u32,
    response: Option<u64>,
) -> Result<TaskPlan, NoMemory>
    requires task { task < length model.now.tasks }
    requires response { option_map (λ (settled : Response). settled.response)
        (response_by_phase (system_of model.now) task) ≡ response }
    ensures { IfOk result (IsPlanOfTask model.now task) }
{
    let window = window_of_run(alloc, model, task, response)?;
    let arrival = tick_of(window.arrival);
    let blocker = blocker_of(model, task);
    let cores = core_alone(alloc, model, task)?;
    let mut plan = TaskPlan {
        task,
        ticks: ticks_of_run(model, task, arrival, blocker),
        arrival,
        start: tick_of(window.start),
        blocker,
        cores,
        aims: Moments::new(alloc),
    };
    plan.note_aims(model)?;
    Ok(plan)
}
