//! The question of a task by phases. Times are in ticks, and moments may lie before 0.
ghost use Rattle.std.specs.Prelude.{◌≡◌, ◌<◌, ◌≤◌, ◌&&◌, nat_lt, length, IfOk, []};
ghost use Rattle.cl_model.specs.{ByNumber.task_at, Validity.IsValid};
ghost use Rattle.cl_runs.specs.{SystemOf.system_of, TaskTiming.timing_at, ExecutionTimes.greatest_execution};
ghost use Rattle.cl_cycle.specs.{Cycles.in_phase_above, Promises.IsCycleOf};
ghost use Rattle.cl_resp.specs.{Question.tight_question_of, Inner.{Phased.{IsPhasedInRange, IsPhasedQuestionOf}, Counted.{counts_in_phase, in_phase_with, beside_with}}};

use crate::asking::block_of;
use crate::question::{Above, Block, Question};
use cl_cycle::{Cycle, arrivals_of};
use cl_model::{List, ValidModel};
use cl_stim::{AnyStimulus, Phase};
use cl_time::NoMemory;
use std::alloc::Global;

/// A task in phase above another.
#[derive(Clone, Copy, PartialEq, Eq)]
pub(crate) struct InPhase {
    /// When its jobs arrive.
    pub(crate) phase: Phase,
    /// How long after its arrival a job is released at most.
    pub(crate) jitter: u64,
    /// The greatest execution time of a job.
    pub(crate) time: u64,
}

/// What the response of a task by phases depends on.
#[derive(PartialEq, Eq, Drop)]
pub(crate) struct PhasedQuestion {
    /// When jobs of the task can arrive.
    pub(crate) arrivals: Phase,
    /// After how many ticks its arrivals and those of the tasks in phase come round.
    pub(crate) cycle: u64,
    /// The tasks in phase above it, in file order.
    pub(crate) in_phase: List<InPhase>,
    /// The tight question of the task, with the other tasks above alone.
    pub(crate) beside: Question,
}

/// Puts together the question of a task by phases, given by its number. `NoMemory` comes where
/// there is no memory for the lists of the tasks above; it leaves nothing.
pub(crate) fn ask_by_phase(
    alloc: Global,
    model: &ValidModel,
    task: u32,
) -> Result<PhasedQuestion, NoMemory>
    requires { task < length model.now.tasks }
    ensures question { IfOk result
        (IsPhasedQuestionOf (system_of model.now) task (greatest_execution (timing_at (system_of model.now) task))) }
    ensures time { IfOk result (λ question. question.beside.time
        ≡ greatest_execution (timing_at (system_of model.now) task)) }
    ensures in_phase { IfOk result (λ question. question.in_phase
        ≡ in_phase_with (system_of model.now) (in_phase_above (system_of model.now) task) task) }
    ensures alone { IfOk result (λ question. question.in_phase ≡ [] → question.beside
        ≡ tight_question_of (system_of model.now) (timing_at (system_of model.now) task)) }
    ensures in_range { IfOk result IsPhasedInRange }
    ensures valid { IsValid model.now }
{
    let cycle = Cycle::of(model, task);
    ask_in_cycle(alloc, model, task, &cycle)
}

/// Puts together the question of a task by phases, whose cycle is this one.
pub(crate) fn ask_in_cycle(
    alloc: Global,
    model: &ValidModel,
    task: u32,
    cycle: &Cycle,
) -> Result<PhasedQuestion, NoMemory>
    requires task { task < length model.now.tasks }
    requires cycle { IsCycleOf (system_of model.now) task cycle.now }
    ensures question { IfOk result
        (IsPhasedQuestionOf (system_of model.now) task (greatest_execution (timing_at (system_of model.now) task))) }
    ensures time { IfOk result (λ question. question.beside.time
        ≡ greatest_execution (timing_at (system_of model.now) task)) }
    ensures in_phase { IfOk result (λ question. question.in_phase
        ≡ in_phase_with (system_of model.now) (in_phase_above (system_of model.now) task) task) }
    ensures alone { IfOk result (λ question. question.in_phase ≡ [] → question.beside
        ≡ tight_question_of (system_of model.now) (timing_at (system_of model.now) task)) }
    ensures in_range { IfOk result IsPhasedInRange }
    ensures valid { IsValid model.now }
{
    let priority = model.task(task).priority;
    Ok(PhasedQuestion {
        arrivals: arrivals_of(model.stimulus_of(task)),
        cycle: cycle.ticks(),
        in_phase: all_in_phase(alloc, model, task, cycle)?,
        beside: Question {
            time: model.time_of(task),
            block: block_of(model, task, priority, Block::OfLower),
            jitter: model.jitter_of(task),
            deadline: model.deadline_of(task),
            above: all_beside(alloc, model, task, cycle)?,
        },
    })
}

/// Checks whether another task has a higher priority than this one and is in phase, or isn't.
fn is_counted(model: &ValidModel, task: u32, other: u32, cycle: &Cycle, in_phase: bool) -> bool
    requires task { task < length model.now.tasks }
    requires other { other < length model.now.tasks }
    ensures { result ≡ nat_lt (task_at model.now task).priority (task_at model.now other).priority
        && counts_in_phase in_phase cycle.now.in_phase.items other }
{
    model.task(other).priority > model.task(task).priority && cycle.has(other) == in_phase
}

/// Lists the tasks in phase above a task.
fn all_in_phase(
    alloc: Global,
    model: &ValidModel,
    task: u32,
    cycle: &Cycle,
) -> Result<List<InPhase>, NoMemory>
    requires valid { IsValid model.now }
    requires task { task < length model.now.tasks }
    ensures { IfOk result
        (λ above. above ≡ in_phase_with (system_of model.now) cycle.now.in_phase.items task) }
{
    let others = model.tasks_of_core(model.core_of(task));
    let mut above = List::with_room(alloc, others.len())?;
    for other in others {
        if is_counted(model, task, *other, cycle, true) {
            above.push(InPhase {
                phase: arrivals_of(model.stimulus_of(*other)),
                jitter: model.jitter_of(*other),
                time: model.time_of(*other),
            })?;
        }
    }
    Ok(above)
}

/// Lists the tasks above a task that aren't in phase.
fn all_beside(
    alloc: Global,
    model: &ValidModel,
    task: u32,
    cycle: &Cycle,
) -> Result<List<Above>, NoMemory>
    requires valid { IsValid model.now }
    requires task { task < length model.now.tasks }
    ensures { IfOk result
        (λ above. above ≡ beside_with (system_of model.now) cycle.now.in_phase.items task) }
{
    let others = model.tasks_of_core(model.core_of(task));
    let mut above = List::with_room(alloc, others.len())?;
    for other in others {
        if is_counted(model, task, *other, cycle, false) {
            let stimulus = AnyStimulus::of(model.stimulus_of(*other));
            let time = model.time_of(*other);
            above.push(Above { stimulus, time })?;
        }
    }
    Ok(above)
}
