//! The responses of the tasks of a core, from the top down. Times are in ticks.
ghost use Rattle.std.specs.Prelude.{◌≡◌, ◌+◌, ◌<◌, Some, None, length, map, IfSome, IfOk, MatchResult, IsPermutation};
ghost use Rattle.std.specs.List.{range_with_len};
ghost use Rattle.cl_model.specs.Validity.{IsValid};
ghost use Rattle.cl_runs.specs.{SystemOf.system_of, TaskTiming.timing_at, Priorities.is_above};
ghost use Rattle.cl_resp.specs.{Promises.AnswersFor, Question.{either_question, IsQuestionInRange}, Reached.HasReached, Response.{response_to, NoneServesBelow}};

use crate::answering::respond_from;
use crate::question::{Block, Question};
use crate::settled::{Late, Settled};
use cl_model::ValidModel;
use cl_time::{NoMemory, Steps};
use std::alloc::Global;
use std::sync::ledger::Ledger;

/// How far the search for the window of a task came: no lesser width holds its demand, nor the
/// demand of a task below it on its core whose block and execution time add up to at least the
/// block of this task.
#[derive(Clone, Copy, PartialEq, Eq)]
pub struct Reached {
    task: u32,
    block: u64,
    width: u64,
}

/// Answers as `respond`, to the question or the tight question of a task of a model. The search
/// begins at the width that the last one reached, if that was for a task above this one on its
/// core, with a block of at most the block and the execution time of this one, and else anew.
/// `last` then says how far this search came. So the tasks of a core are best asked from the top
/// down. `Late` comes exactly where no window up to the deadline less the jitter holds its own
/// demand. It takes no memory, and counts one analysing step, whatever it answers.
pub fn respond_below<L: Ledger>(
    model: &ValidModel,
    task: u32,
    blocking: Block,
    question: &Question,
    last: &mut Option<Reached>,
    steps: &mut Steps<L>,
) -> Result<Settled, Late>
    requires task { task < length model.now.tasks }
    requires question { question.now ≡ either_question blocking (system_of model.now) (timing_at (system_of model.now) task) }
    requires in_range { IsQuestionInRange question.now }
    requires last { IfSome last.old (HasReached blocking (system_of model.now)) }
    ensures response { MatchResult result
        (λ settled. response_to question.now ≡ Some settled)
        (λ _. response_to question.now ≡ None) }
    ensures finishing { IfOk result (λ settled. AnswersFor question.now settled.response) }
    ensures last { IfSome last.new (HasReached blocking (system_of model.now)) }
    ensures steps { steps.new ≡ steps.old + 1 }
{
    let answer = respond_from(
        question,
        start_of(model, task, blocking, question, *last),
        steps,
    );
    *last = Some(Reached {
        task,
        block: question.block,
        width: width_reached(question, &answer),
    });
    answer
}

/// Lists the numbers of all tasks, core by core, and on each core from the highest priority to the
/// lowest. `NoMemory` comes where there is no memory for the numbers or for the keys by which they
/// are sorted; it leaves nothing.
pub fn from_the_top(alloc: Global, model: &ValidModel) -> Result<Vec<u32>, NoMemory>
    ensures { IfOk result
        (λ order. IsPermutation (range_with_len 0 (length model.now.tasks)) order.items) }
{
    let mut keyed = Vec::new(alloc);
    for task in 0..model.tasks() {
        let from_the_top = u64::MAX - model.task(task).priority;
        keyed.push((model.core_of(task), from_the_top, task))?;
    }
    keyed.sort_unstable();
    tasks_of(alloc, keyed.as_slice())
}

/// Takes the task numbers from keyed tasks, in order.
fn tasks_of(alloc: Global, keyed: &[(u32, u64, u32)]) -> Result<Vec<u32>, NoMemory>
    ensures { IfOk result (λ tasks. tasks.items ≡ map (λ keyed. keyed.2) keyed.now) }
{
    let tasks = keyed.iter().map(|keyed| keyed.2).collect(alloc)?;
    Ok(tasks)
}

/// Finds the width at which the search for the window of a task may begin: the one that the last
/// search reached, where that serves this task too, and else 0.
fn start_of(
    model: &ValidModel,
    task: u32,
    blocking: Block,
    question: &Question,
    last: Option<Reached>,
) -> u64
    requires task { task < length model.now.tasks }
    requires question { question.now ≡ either_question blocking (system_of model.now) (timing_at (system_of model.now) task) }
    requires in_range { IsQuestionInRange question.now }
    requires last { IfSome last (HasReached blocking (system_of model.now)) }
    ensures { NoneServesBelow question.now result }
{
    let Some(last) = last else {
        return 0;
    };
    let longer = last.block > question.block + question.time;
    if longer || !is_above(model, task, last.task) {
        return 0;
    }
    last.width
}

/// Checks whether another task has a higher priority than a task, on the same core.
fn is_above(model: &ValidModel, task: u32, other: u32) -> bool
    requires task { task < length model.now.tasks }
    requires other { other < length model.now.tasks }
    ensures above { result
        ≡ is_above (timing_at (system_of model.now) task) (timing_at (system_of model.now) other) }
    ensures valid { IsValid model.now }
{
    let priority = model.task(task).priority;
    model.core_of(other) == model.core_of(task) && priority < model.task(other).priority
}

/// Finds the width below which none holds the demand of a question, by its answer: the window, or
/// for a late task the first width past the deadline less the jitter.
fn width_reached(question: &Question, answer: &Result<Settled, Late>) -> u64
    requires in_range { IsQuestionInRange question.now }
    requires response { MatchResult answer.now
        (λ settled. response_to question.now ≡ Some settled)
        (λ _. response_to question.now ≡ None) }
    ensures { NoneServesBelow question.now result }
{
    match answer {
        Ok(settled) => settled.window,
        Err(Late) => question.deadline - question.jitter + 1,
    }
}
