//! Whether a task passes below others of its core. Times are in ticks. An order is filled from
//! priority 1 upward. A task is unplaced while the order doesn't have it, and then it stands above
//! all tasks that the order has.
ghost use Rattle.std.specs.Prelude.{◌≡◌, ℕ, ◌<◌, ◌≤◌, ◌^◌, ◌&&◌, nat_le, nat_lt, map, max, length, slice_set, is_some, IfOk, All};
ghost use Rattle.cl_model.specs.{ByNumber.deadline_of, Validity.IsValid, ValidTasks.spans_too_many};
ghost use Rattle.cl_runs.specs.{SystemOf.system_of, TaskTiming.timing_at};
ghost use Rattle.cl_resp.specs.{Question.{longest_hold, taken_by, IsQuestionInRange}, Response.response_to};
ghost use Rattle.cl_tune.specs.Inner.Filling.{without, question_over, spans_few_of};

use cl_model::{List, MOST_DISTANCES, MOST_TICKS, StimulusKind, ValidModel};
use cl_resp::{Above, Question, respond};
use cl_stim::AnyStimulus;
use cl_time::{NoMemory, Steps};
use std::alloc::Global;
use std::sync::ledger::Ledger;

/// Copies the tasks of a list without one of them.
pub(crate) fn without(alloc: Global, tasks: &[u32], task: u32) -> Result<Vec<u32>, NoMemory>
    ensures { IfOk result (λ others. others.items ≡ without task tasks.now) }
{
    let others = tasks
        .iter()
        .copied()
        .filter(|other| *other != task)
        .collect(alloc)?;
    Ok(others)
}

/// How long a runnable of the task of this number may hold its core once it has begun, in ticks.
pub(crate) fn longest_hold(model: &ValidModel, task: u32) -> u64
    requires { task < length model.now.tasks }
    ensures hold { result ≡ longest_hold (timing_at (system_of model.now) task) }
    ensures small { result ≤ MOST_TICKS }
{
    model.task(task).longest_hold()
}

/// The least deadline that, with the jitter of a task of higher priority, spans too many least
/// distances of that task.
fn first_too_long(above: StimulusKind) -> u128
    ensures { (deadline : ℕ) → spans_too_many deadline above ≡ nat_le result deadline }
{
    let limit = u128::from(MOST_DISTANCES) * u128::from(above.least_distance());
    (limit + 1).saturating_sub(u128::from(above.greatest_jitter()))
}

/// The least deadline that, with the jitter of one of the tasks, spans too many least distances of
/// that task. Where there are no tasks, it is longer than any deadline.
pub(crate) fn first_too_long_for_any(model: &ValidModel, tasks: &[u32]) -> u128
    requires { All (λ task. task < length model.now.tasks) tasks.now }
    ensures { (deadline : ℕ) → deadline < 2 ^ 64
        → spans_few_of (system_of model.now) deadline tasks.now ≡ nat_lt deadline result }
{
    let mut first = u128::MAX;
    for task in tasks {
        first = first.min(first_too_long(model.stimulus_of(*task)));
    }
    first
}

/// Stimulus and execution time of each of the other tasks, in the order of `others`.
pub(crate) fn all_above(
    alloc: Global,
    model: &ValidModel,
    others: &[u32],
) -> Result<List<Above>, NoMemory>
    requires valid { IsValid model.now }
    requires others { All (λ other. other < length model.now.tasks) others.now }
    ensures { IfOk result
        (λ above. above ≡ map
        (λ other. taken_by (timing_at (system_of model.now) other)) others.now) }
{
    let mut above = List::new(alloc);
    for other in others {
        // not by `above_of`, since `push` wouldn't know the type of its stimulus
        let stimulus = AnyStimulus::of(model.stimulus_of(*other));
        let time = model.time_of(*other);
        above.push(Above { stimulus, time })?;
    }
    Ok(above)
}

/// Stimulus and execution time of a task.
fn above_of(model: &ValidModel, task: u32) -> Above
    requires valid { IsValid model.now }
    requires task { task < length model.now.tasks }
    ensures { result ≡ taken_by (timing_at (system_of model.now) task) }
{
    Above {
        stimulus: AnyStimulus::of(model.stimulus_of(task)),
        time: model.time_of(task),
    }
}

/// Replaces what stands at a place by stimulus and execution time of a task. Past the end nothing
/// changes.
pub(crate) fn put_above(model: &ValidModel, above: &mut List<Above>, place: usize, task: u32)
    requires valid { IsValid model.now }
    requires task { task < length model.now.tasks }
    ensures { above.new ≡ slice_set above.old place (taken_by (timing_at (system_of model.now) task)) }
{
    if place < above.len() {
        *above.item_mut(place) = above_of(model, task);
    }
}

/// The question of a task below the tasks of `above`, where whole runnables of the tasks below it
/// may block it for `block` ticks.
fn question_over(model: &ValidModel, block: u64, above: List<Above>, task: u32) -> Question
    requires { task < length model.now.tasks }
    ensures { result ≡ question_over (system_of model.now) block above task }
{
    Question {
        time: model.time_of(task),
        block: block.max(longest_hold(model, task)),
        jitter: model.jitter_of(task),
        deadline: model.deadline_of(task),
        above,
    }
}

/// Checks whether a task passes below others, where whole runnables of the tasks below it may block
/// it for `block` ticks: its deadline is less than `too_long`, and the task isn't late. Counts a
/// step where the deadline is less, and gives `others` back.
pub(crate) fn fits<L: Ledger>(
    model: &ValidModel,
    block: u64,
    too_long: u128,
    others: List<Above>,
    task: u32,
    steps: &mut Steps<L>,
) -> (bool, List<Above>)
    requires task { task < length model.now.tasks }
    requires in_range { deadline_of model.now task < too_long
        → IsQuestionInRange (question_over (system_of model.now) block others task) }
    ensures fit { result.0 ≡ (nat_lt (deadline_of model.now task) too_long
        && is_some (response_to (question_over (system_of model.now) block others task))) }
    ensures others { result.1 ≡ others }
{
    if u128::from(model.deadline_of(task)) >= too_long {
        return (false, others);
    }
    let question = question_over(model, block, others, task);
    let passes = respond(&question, steps).is_ok();
    (passes, question.above)
}
