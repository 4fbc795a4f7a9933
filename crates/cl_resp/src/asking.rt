//! The question of a task of a valid model. Times are in ticks.
ghost use Rattle.std.specs.Prelude.{◌≡◌, ◌<◌, ◌↔◌, IsTrue, length, map, filter, IfOk};
ghost use Rattle.cl_model.specs.{ByNumber.task_at, Validity.IsValid};
ghost use Rattle.cl_runs.specs.{SystemOf.{timing_of, system_of}, TaskTiming.timing_at, Priorities.is_above};
ghost use Rattle.cl_resp.specs.Question.{may_hold_beside, block_by, taken_by, question_of, tight_question_of, either_question, IsQuestionInRange};

use crate::question::{Above, Block, Question};
use cl_model::{List, ValidModel};
use cl_stim::AnyStimulus;
use cl_time::NoMemory;
use std::alloc::Global;

/// Checks whether a task has a higher priority than this one.
fn is_higher(model: &ValidModel, task: u32, priority: u64) -> bool
    requires { task < length model.now.tasks }
    ensures { IsTrue result ↔ priority < (task_at model.now task).priority }
{
    model.task(task).priority > priority
}

/// Stimulus and execution time of each task above this one on its core, in file order. `priority`
/// is the priority of this task.
fn all_above(
    alloc: Global,
    model: &ValidModel,
    task: u32,
    priority: u64,
) -> Result<List<Above>, NoMemory>
    requires valid { IsValid model.now }
    requires task { task < length model.now.tasks }
    requires priority { priority ≡ (task_at model.now task).priority }
    ensures { IfOk result (λ above. above
        ≡ map taken_by (filter (is_above (timing_of model.now (task_at model.now task))) (system_of model.now).tasks)) }
{
    let others = model.tasks_of_core(model.core_of(task));
    let mut above = List::with_room(alloc, others.len())?;
    for other in others {
        if is_higher(model, *other, priority) {
            let stimulus = AnyStimulus::of(model.stimulus_of(*other));
            let time = model.time_of(*other);
            above.push(Above { stimulus, time })?;
        }
    }
    Ok(above)
}

/// Checks whether a task may hold its core while a task of this priority waits there: if it has a
/// lower priority or, where the block counts a task's own runnables, the same priority, so that it
/// is the waiting task itself.
fn may_hold(model: &ValidModel, other: u32, priority: u64, blocking: Block) -> bool
    requires { other < length model.now.tasks }
    ensures { result ≡ may_hold_beside blocking (task_at model.now other).priority priority }
{
    let other = model.task(other).priority;
    match blocking {
        Block::OfLower => other < priority,
        Block::WithOwn => other <= priority,
    }
}

/// Finds how long a whole runnable that has begun may hold the core of a task: a runnable of a task
/// of lower priority there or, where the block counts a task's own runnables, of the task itself.
/// `priority` is the priority of the task. The result is 0 where there is no such runnable.
#[tactic(auto, using(cl_model::proofs::Greatest::greatest_more))]
pub(crate) fn block_of(model: &ValidModel, task: u32, priority: u64, blocking: Block) -> u64
    requires task { task < length model.now.tasks }
    requires priority { priority ≡ (task_at model.now task).priority }
    ensures { result ≡ block_by blocking (system_of model.now) (timing_of model.now (task_at model.now task)) }
{
    let mut block = 0;
    for other in model.tasks_of_core(model.core_of(task)) {
        if may_hold(model, *other, priority, blocking) {
            block = block.max(model.task(*other).longest_hold());
        }
    }
    block
}

/// Puts together a question of a task, given by its number: for `Block::WithOwn` the question of
/// `ask`, whose block counts the task's own whole runnables too, and for `Block::OfLower` the tight
/// question of `ask_tight`, whose block doesn't. `NoMemory` comes where there is no memory for the
/// list of the tasks above; it leaves nothing.
pub fn ask_either(
    alloc: Global,
    model: &ValidModel,
    task: u32,
    blocking: Block,
) -> Result<Question, NoMemory>
    requires { task < length model.now.tasks }
    ensures question { IfOk result (λ question. question
        ≡ either_question blocking (system_of model.now) (timing_at (system_of model.now) task)) }
    ensures in_range { IfOk result IsQuestionInRange }
{
    let priority = model.task(task).priority;
    Ok(Question {
        time: model.time_of(task),
        block: block_of(model, task, priority, blocking),
        jitter: model.jitter_of(task),
        deadline: model.deadline_of(task),
        above: all_above(alloc, model, task, priority)?,
    })
}

/// Puts together the question of a task, given by its number. Whole runnables of the task and of
/// tasks of lower priority on its core block it, and above it stand the tasks of higher priority on
/// its core, in file order. `NoMemory` comes where there is no memory for the list of these; it
/// leaves nothing.
pub fn ask(alloc: Global, model: &ValidModel, task: u32) -> Result<Question, NoMemory>
    requires { task < length model.now.tasks }
    ensures question { IfOk result (λ question. question
        ≡ question_of (system_of model.now) (timing_at (system_of model.now) task)) }
    ensures in_range { IfOk result IsQuestionInRange }
{
    ask_either(alloc, model, task, Block::WithOwn)
}

/// Puts together the tight question of a task, given by its number: that of `ask`, but for the
/// block, which leaves out the task's own whole runnables. Its response holds as well and is no
/// later: the earlier jobs of a settled task have finished by the moment from which the window of a
/// job counts. `NoMemory` comes where there is no memory for the list of the tasks above; it leaves
/// nothing.
pub fn ask_tight(alloc: Global, model: &ValidModel, task: u32) -> Result<Question, NoMemory>
    requires { task < length model.now.tasks }
    ensures question { IfOk result (λ question. question
        ≡ tight_question_of (system_of model.now) (timing_at (system_of model.now) task)) }
    ensures in_range { IfOk result IsQuestionInRange }
{
    ask_either(alloc, model, task, Block::OfLower)
}
