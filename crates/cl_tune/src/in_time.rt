//! Whether the tasks of a model are in time with other execution times. Times are in ticks.
ghost use Rattle.std.specs.Prelude.{◌≡◌, ℕ, ◌<◌, length, map, filter, IfOk, MatchBool};
ghost use Rattle.cl_model.specs.{ByNumber.{task_at, core_of, tasks_of_core}, Holds.greatest_by, Validity.IsValid};
ghost use Rattle.cl_resp.specs.Question.{IsQuestionInRange};
ghost use Rattle.cl_tune.specs.Inner.Times.{is_higher, above_with, may_hold, hold_with, question_with, AreTimely};

use crate::times::TaskTimes;
use cl_analyse::answer_question;
use cl_model::{List, ValidModel};
use cl_resp::{Above, Question};
use cl_stim::AnyStimulus;
use cl_time::{NoMemory, Steps};
use std::alloc::Global;
use std::sync::ledger::Ledger;

/// Stimulus and execution time of each task above this one on its core, in file order. The
/// execution times are those of `times`.
fn all_above(
    alloc: Global,
    model: &ValidModel,
    times: &[TaskTimes],
    task: u32,
) -> Result<List<Above>, NoMemory>
    requires valid { IsValid model.now }
    requires task { task < length model.now.tasks }
    requires times { length times.now ≡ length model.now.tasks }
    ensures { IfOk result (λ above. above
        ≡ map (above_with model.now times.now) (filter (is_higher model.now task) (tasks_of_core model.now (core_of model.now task)))) }
{
    let priority = model.task(task).priority;
    let others = model.tasks_of_core(model.core_of(task));
    let mut above = List::with_room(alloc, others.len())?;
    for other in others {
        if model.task(*other).priority > priority {
            let stimulus = AnyStimulus::of(model.stimulus_of(*other));
            let time = times[*other as usize].time;
            above.push(Above { stimulus, time })?;
        }
    }
    Ok(above)
}

/// How long a whole runnable of a task, or of one of lower priority on its core, may hold the core
/// once it has begun, by `times`.
#[tactic(auto, using(cl_model::proofs::Greatest::greatest_more))]
fn block_of(model: &ValidModel, times: &[TaskTimes], task: u32) -> u64
    requires task { task < length model.now.tasks }
    requires times { length times.now ≡ length model.now.tasks }
    ensures { result
        ≡ greatest_by (hold_with times.now) (filter (may_hold model.now task) (tasks_of_core model.now (core_of model.now task))) }
{
    let priority = model.task(task).priority;
    let mut block = 0;
    for other in model.tasks_of_core(model.core_of(task)) {
        if model.task(*other).priority <= priority {
            block = block.max(times[*other as usize].hold);
        }
    }
    block
}

/// The question of a task where the tasks have these times. `NoMemory` comes where there is no
/// memory for the tasks above it.
fn question_of(
    alloc: Global,
    model: &ValidModel,
    times: &[TaskTimes],
    task: u32,
) -> Result<Question, NoMemory>
    requires valid { IsValid model.now }
    requires task { task < length model.now.tasks }
    requires times { length times.now ≡ length model.now.tasks }
    ensures { IfOk result (λ question. question ≡ question_with model.now times.now task) }
{
    Ok(Question {
        time: times[task as usize].time,
        block: block_of(model, times, task),
        jitter: model.jitter_of(task),
        deadline: model.deadline_of(task),
        above: all_above(alloc, model, times, task)?,
    })
}

/// Checks whether no task is late where the tasks have these times. Stops at the first late one.
/// Each task that it asks counts a step.
pub(crate) fn tasks_in_time<L: Ledger>(
    alloc: Global,
    model: &ValidModel,
    times: &[TaskTimes],
    steps: &mut Steps<L>,
) -> Result<bool, NoMemory>
    requires valid { IsValid model.now }
    requires times { length times.now ≡ length model.now.tasks }
    requires in_range { (task : ℕ) → task < length model.now.tasks
        → IsQuestionInRange (question_with model.now times.now task) }
    ensures { IfOk result
        (λ timely. MatchBool timely (AreTimely model.now times.now) (AreTimely model.now times.now
        → ⊥)) }
{
    for task in 0..model.tasks() {
        let question = question_of(alloc, model, times, task)?;
        if answer_question(&question, steps).is_late() {
            return Ok(false);
        }
    }
    Ok(true)
}
