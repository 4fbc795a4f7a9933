//! The answers for the tasks of an edited model: the earlier ones where the question is the same,
//! and else new ones. Times are in ticks.
ghost use Rattle.std.specs.Prelude.{◌≡◌, ℕ, ◌<◌, ◌↔◌, length, IfOk, IsTrue};
ghost use Rattle.cl_model.specs.declared.model.SystemModel.{SystemModel};
ghost use Rattle.cl_runs.specs.{SystemOf.system_of, TaskTiming.timing_at};
ghost use Rattle.cl_bound.specs.Answers.{answer_to, answers_of};
ghost use Rattle.cl_analyse.specs.Headline.{question_at};
ghost use Rattle.cl_incr.specs.{Changed.IsChangedTask, Inner.{Kept.IsKeptTask, Asked.{AsksOne, AsksTasks}, Standing.{StandsAs, AreStanding}}};

use cl_analyse::answer_question;
use cl_bound::TaskAnswer;
use cl_model::{List, ValidModel};
use cl_resp::{Question, ask};
use cl_time::{NoMemory, Steps};
use std::alloc::Global;
use std::sync::ledger::Ledger;

/// Whether the questions of two tasks are the same.
fn is_same_question(one: &Question, other: &Question) -> bool
    ensures { (old new : SystemModel) → (before task : ℕ) → one.now ≡ question_at old before
        → other.now ≡ question_at new task → IsTrue result ↔ (one.now ≡ other.now) }
{
    one == other
}

/// Returns the earlier answer for the old model's task of the same name, if it had this question.
/// There is none where no task had the name, or its question was another one.
fn kept_answer(
    alloc: Global,
    old: &ValidModel,
    answers: &List<TaskAnswer>,
    new: &ValidModel,
    task: u32,
    question: &Question,
) -> Result<Option<TaskAnswer>, NoMemory>
    requires answers { answers.now ≡ answers_of (system_of old.now) }
    requires task { task < length new.now.tasks }
    requires question { question.now ≡ question_at new.now task }
    ensures { IfOk result (IsKeptTask old.now new.now task) }
{
    let Some(before) = old.task_named(&new.task(task).name) else {
        return Ok(None);
    };
    let question_before = ask(alloc, old, before)?;
    if is_same_question(&question_before, question) {
        Ok(Some(answers.as_slice()[before as usize]))
    } else {
        Ok(None)
    }
}

/// Finds the answer for a task of the new model. Counts at most one step, and only where its
/// question is changed.
fn answer_task<L: Ledger>(
    alloc: Global,
    old: &ValidModel,
    answers: &List<TaskAnswer>,
    new: &ValidModel,
    task: u32,
    steps: &mut Steps<L>,
) -> Result<TaskAnswer, NoMemory>
    requires answers { answers.now ≡ answers_of (system_of old.now) }
    requires task { task < length new.now.tasks }
    ensures answer { IfOk result
        (λ answer. answer ≡ answer_to (system_of new.now) (timing_at (system_of new.now) task)) }
    ensures steps { AsksOne (IsChangedTask old.now new.now task) 1 steps.old steps.new }
{
    let question = ask(alloc, new, task)?;
    match kept_answer(alloc, old, answers, new, task, &question)? {
        Some(kept) => Ok(kept),
        None => Ok(answer_question(&question, steps)),
    }
}

/// Finds the answer for a task of the new model: it keeps that of the task as which it stands, if
/// there is one.
fn keep_or_answer<L: Ledger>(
    alloc: Global,
    old: &ValidModel,
    answers: &List<TaskAnswer>,
    was: u32,
    new: &ValidModel,
    task: u32,
    steps: &mut Steps<L>,
) -> Result<TaskAnswer, NoMemory>
    requires answers { answers.now ≡ answers_of (system_of old.now) }
    requires task { task < length new.now.tasks }
    requires was { was < length old.now.tasks → StandsAs old.now new.now was task }
    ensures answer { IfOk result
        (λ answer. answer ≡ answer_to (system_of new.now) (timing_at (system_of new.now) task)) }
    ensures steps { AsksOne (IsChangedTask old.now new.now task) 1 steps.old steps.new }
{
    if was < old.tasks() {
        Ok(answers.as_slice()[was as usize])
    } else {
        answer_task(alloc, old, answers, new, task, steps)
    }
}

/// Finds the answers for all tasks of the new model. Counts at most one step for each task with a
/// changed question.
pub(crate) fn answer_tasks<L: Ledger>(
    alloc: Global,
    old: &ValidModel,
    answers: &List<TaskAnswer>,
    standing: &[u32],
    new: &ValidModel,
    steps: &mut Steps<L>,
) -> Result<List<TaskAnswer>, NoMemory>
    requires answers { answers.now ≡ answers_of (system_of old.now) }
    requires standing { AreStanding old.now new.now standing.now }
    ensures answers { IfOk result (λ found. found ≡ answers_of (system_of new.now)) }
    ensures steps { AsksTasks old.now new.now (length new.now.tasks) steps.old steps.new }
{
    let mut found = List::with_room(alloc, new.tasks() as usize)?;
    for task in 0..new.tasks() {
        let was = standing[task as usize];
        found.push(keep_or_answer(alloc, old, answers, was, new, task, steps)?)?;
    }
    Ok(found)
}
