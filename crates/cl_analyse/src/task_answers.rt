//! The answers to the questions of tasks. Times are in ticks.
ghost use Rattle.std.specs.Prelude.{◌≡◌, ◌+◌, ◌<◌, ◌≤◌, length, map, replicate, IfOk, IfSome};
ghost use Rattle.cl_model.specs.Validity.{IsValid};
ghost use Rattle.cl_runs.specs.{SystemOf.system_of, TaskTiming.timing_at};
ghost use Rattle.cl_resp.specs.{Question.{either_question, IsQuestionInRange}, Reached.HasReached, Response.response_to};
ghost use Rattle.cl_bound.specs.{declared.answer.TaskAnswer.TheVariants.Late as LateAnswer, Answers.answer_with};

use cl_bound::TaskAnswer;
use cl_model::{List, ValidModel};
use cl_resp::{Block, Late, Question, Reached, ask_either, from_the_top, respond, respond_below};
use cl_time::{NoMemory, Steps};
use std::alloc::Global;
use std::sync::ledger::Ledger;

/// Answers the question of a task: finds its window and its response, in ticks, or that it is late.
/// It counts one step and takes no memory.
pub fn answer_question<L: Ledger>(question: &Question, steps: &mut Steps<L>) -> TaskAnswer
    requires { IsQuestionInRange question.now }
    ensures answer { result ≡ answer_with (response_to question.now) }
    ensures steps { steps.new ≡ steps.old + 1 }
{
    match respond(question, steps) {
        Ok(settled) => TaskAnswer::Settled(settled),
        Err(Late) => TaskAnswer::Late,
    }
}

/// Answers a question of a task of a model by `respond_below`: the search begins where the last one
/// came to, if that was for a task above this one with a block that isn't longer than
/// `respond_below` allows. `last` then says how far this search came, so the tasks of a core are
/// best asked from the top down. It counts one step and takes no memory.
pub fn answer_below<L: Ledger>(
    model: &ValidModel,
    task: u32,
    blocking: Block,
    question: &Question,
    last: &mut Option<Reached>,
    steps: &mut Steps<L>,
) -> TaskAnswer
    requires task { task < length model.now.tasks }
    requires question { question.now ≡ either_question blocking (system_of model.now) (timing_at (system_of model.now) task) }
    requires in_range { IsQuestionInRange question.now }
    requires last { IfSome last.old (HasReached blocking (system_of model.now)) }
    ensures answer { result ≡ answer_with (response_to question.now) }
    ensures last { IfSome last.new (HasReached blocking (system_of model.now)) }
    ensures steps { steps.new ≡ steps.old + 1 }
{
    match respond_below(model, task, blocking, question, last, steps) {
        Ok(settled) => TaskAnswer::Settled(settled),
        Err(Late) => TaskAnswer::Late,
    }
}

/// Answers a question of each task: the question whose block counts the task's own runnables too,
/// or the tight one. The answers are in file order. The tasks of a core are asked from the top down
/// by `answer_below`. It counts a step for each task. `NoMemory` comes where there is no memory for
/// the answers, for a question or for the order in which tasks are asked; it leaves nothing.
pub fn answer_tasks<L: Ledger>(
    alloc: Global,
    model: &ValidModel,
    blocking: Block,
    steps: &mut Steps<L>,
) -> Result<List<TaskAnswer>, NoMemory>
    ensures answers { IfOk result (λ answers. answers
        ≡ map (λ timing. answer_with (response_to (either_question blocking (system_of model.now) timing))) (system_of model.now).tasks) }
    ensures steps { steps.new ≤ steps.old + length model.now.tasks }
    ensures valid { IsValid model.now }
{
    let mut answers = all_late(alloc, model)?;
    let mut last = None;
    let order = from_the_top(alloc, model)?;
    for task in &order {
        let question = ask_either(alloc, model, *task, blocking)?;
        let answer = answer_below(model, *task, blocking, &question, &mut last, steps);
        *answers.item_mut(*task as usize) = answer;
    }
    Ok(answers)
}

/// One answer for each task, `Late` until it is computed.
fn all_late(alloc: Global, model: &ValidModel) -> Result<List<TaskAnswer>, NoMemory>
    ensures late { IfOk result
        (λ answers. answers ≡ replicate (length model.now.tasks) LateAnswer) }
    ensures valid { IsValid model.now }
{
    let mut answers = List::new(alloc);
    for _ in 0..model.tasks() {
        answers.push(TaskAnswer::Late)?;
    }
    Ok(answers)
}
