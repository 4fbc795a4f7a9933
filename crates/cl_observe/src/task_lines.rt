//! The lines of what a run shows of the tasks of a model.
ghost use Rattle.std.specs.Prelude.{◌≡◌, ◌<◌, ◌++◌, length, OnOk};
ghost use Rattle.cl_model.specs.ByNumber.{task_at};
ghost use Rattle.cl_runs.specs.{SystemOf.system_of, Run.IsInForm};
ghost use Rattle.cl_check.specs.{Apart.StandApart, InOrder.IsRunInOrder};
ghost use Rattle.cl_bound.specs.Answers.{answer_at};
ghost use Rattle.cl_observe.specs.{Inner.JobLists.AreFinishTimes, Observed.{response_number, response_words, response_bound, shown_line, observed_jitter_line, observed_runnable_line, GoesOnWith, IsMadeOf, IsTimeLine, IsTaskText}};

use crate::task_shown::{ShownTask, finishes, shown_task, shown_time};
use crate::values::{GreatestResponse, Spread};
use crate::words::{is_outside, put_bound_beside, put_range};
use cl_bound::TaskAnswer;
use cl_explain::put_signed;
use cl_model::ValidModel;
use cl_report::{put_name, put_task_name};
use cl_run_data::RunData;
use cl_text::Text;
use cl_time::NoMemory;
use std::alloc::Global;

/// Puts the lines of all tasks in file order. `apart` has a list of entries for each task, as
/// `tasks_apart` returns it.
pub(crate) fn put_tasks(
    alloc: Global,
    text: &mut Text,
    model: &ValidModel,
    answers: &[TaskAnswer],
    run: &RunData,
    apart: &RunData,
) -> Result<(), NoMemory>
    requires answers { length answers.now ≡ length model.now.tasks }
    requires in_form { IsInForm (system_of model.now) run.now }
    requires in_order { IsRunInOrder (system_of model.now) run.now }
    requires apart { StandApart (system_of model.now) run.now apart.now }
    ensures { OnOk result
        (GoesOnWith (IsMadeOf (λ task. IsTaskText model.now run.now (answer_at answers.now task) task) (length model.now.tasks)) text.old text.new) }
{
    for task in 0..model.tasks() {
        put_task(
            alloc,
            text,
            model,
            &answers[task as usize],
            run,
            apart,
            task,
        )?;
    }
    Ok(())
}

/// Puts the lines of a task that has this answer: what is shown of it, its jitter, and the times of
/// its runnables.
fn put_task(
    alloc: Global,
    text: &mut Text,
    model: &ValidModel,
    answer: &TaskAnswer,
    run: &RunData,
    apart: &RunData,
    task: u32,
) -> Result<(), NoMemory>
    requires task { task < length model.now.tasks }
    requires in_form { IsInForm (system_of model.now) run.now }
    requires in_order { IsRunInOrder (system_of model.now) run.now }
    requires apart { StandApart (system_of model.now) run.now apart.now }
    ensures { OnOk result (GoesOnWith (IsTaskText model.now run.now answer.now task) text.old text.new) }
{
    let finishes = finishes(alloc, model, run, apart, task)?;
    let shown = shown_task(model, run, task, finishes.as_slice());
    let jobs = run.table().jobs_of(task).len();
    put_shown(text, model, answer, task, jobs as u64, shown)?;
    put_jitter(text, model, task, shown.jitter)?;
    put_times(alloc, text, model, run, apart, task, finishes.as_slice())
}

/// Puts what is shown of the jobs of a task that has this answer.
fn put_shown(
    text: &mut Text,
    model: &ValidModel,
    answer: &TaskAnswer,
    task: u32,
    jobs: u64,
    shown: ShownTask,
) -> Result<(), NoMemory>
    requires { task < length model.now.tasks }
    ensures { OnOk result (text.new ≡ text.old ++ shown_line model.now answer.now task jobs shown) }
{
    text.put(b"task ")?;
    put_task_name(text, model, task)?;
    text.put(b" jobs ")?;
    text.put_number(jobs)?;
    text.put(b" misses ")?;
    text.put_number(shown.misses)?;
    text.put(b" response ")?;
    put_response(text, shown.response)?;
    put_bound_beside(
        text,
        response_number(shown.response),
        response_bound(answer),
    )?;
    text.put(b"\n")
}

/// Puts the greatest response and its job, or that there is none.
fn put_response(text: &mut Text, response: Option<GreatestResponse>) -> Result<(), NoMemory>
    ensures { OnOk result (text.new ≡ text.old ++ response_words response) }
{
    match response {
        None => text.put(b"none"),
        Some(shown) => {
            put_signed(text, shown.response)?;
            text.put(b" job ")?;
            text.put_number(shown.job)
        }
    }
}

/// Returns the greatest response without its job.
fn response_number(response: Option<GreatestResponse>) -> Option<i128>
    ensures { result ≡ response_number response }
{
    match response {
        None => None,
        Some(shown) => Some(shown.response),
    }
}

/// Returns the response by phases of a task that has one.
fn response_bound(answer: &TaskAnswer) -> Option<u64>
    ensures { result ≡ response_bound answer.now }
{
    match answer {
        TaskAnswer::Settled(settled) => Some(settled.response()),
        TaskAnswer::Late => None,
    }
}

/// Puts the line of the jitter of a task that has jobs, where its stimulus has jitter or a release
/// isn't an arrival.
fn put_jitter(
    text: &mut Text,
    model: &ValidModel,
    task: u32,
    jitter: Option<Spread>,
) -> Result<(), NoMemory>
    requires { task < length model.now.tasks }
    ensures { OnOk result (text.new ≡ text.old ++ observed_jitter_line model.now task jitter) }
{
    let most = model.jitter_of(task);
    match jitter {
        Some(spread) if 0 < most || is_outside(spread, 0, 0) => {
            text.put(b"jitter ")?;
            put_task_name(text, model, task)?;
            put_range(text, jitter, 0, most)?;
            text.put(b"\n")
        }
        _ => Ok(()),
    }
}

/// Puts the lines of the times of the runnables of a task, in the order of its jobs, which finish as
/// this list says.
fn put_times(
    alloc: Global,
    text: &mut Text,
    model: &ValidModel,
    run: &RunData,
    apart: &RunData,
    task: u32,
    finishes: &[Option<u64>],
) -> Result<(), NoMemory>
    requires task { task < length model.now.tasks }
    requires in_form { IsInForm (system_of model.now) run.now }
    requires in_order { IsRunInOrder (system_of model.now) run.now }
    requires apart { StandApart (system_of model.now) run.now apart.now }
    requires finishes { AreFinishTimes (system_of model.now) run.now task finishes.now }
    ensures { OnOk result
        (GoesOnWith (IsMadeOf (IsTimeLine model.now run.now task) (length (task_at model.now task).runnables)) text.old text.new) }
{
    let runnables = model.task(task).runnables.len() as u32;
    for place in 0..runnables {
        let time = shown_time(alloc, model, run, apart, task, place, finishes)?;
        put_time(text, model, task, place, time)?;
    }
    Ok(())
}

/// Puts the line of the time of a runnable of a task.
fn put_time(
    text: &mut Text,
    model: &ValidModel,
    task: u32,
    place: u32,
    time: Option<Spread>,
) -> Result<(), NoMemory>
    requires task { task < length model.now.tasks }
    requires place { place < length (task_at model.now task).runnables }
    ensures { OnOk result (text.new ≡ text.old ++ observed_runnable_line model.now task place time) }
{
    let runnable = &model.task(task).runnables.as_slice()[place as usize];
    text.put(b"runnable ")?;
    put_name(text, &runnable.name)?;
    put_range(text, time, runnable.least, runnable.greatest)?;
    text.put(b"\n")
}
