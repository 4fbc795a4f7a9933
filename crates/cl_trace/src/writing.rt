//! Writing a run as a trace.
ghost use Rattle.std.specs.Prelude.{◌≡◌, ◌<◌, ◌≤◌, [], ◌∷◌, ◌++◌, length, codes, map, All, OnOk, IfOk};
ghost use Rattle.cl_text.specs.Line.{line};
ghost use Rattle.cl_model.specs.ByNumber.{task_at};
ghost use Rattle.cl_runs.specs.{Run.IsInForm, SystemOf.system_of};
ghost use Rattle.cl_trace.specs.{Trace.{JobOf, number_text, numbers, job_line_words, run_words, text_of, job_items, run_items, core_items, stretch_item, stretch_items, spelled}, Inner.TaskStretches.IsOfTask};

use crate::ending::Ending;
use cl_model::ValidModel;
use cl_run_data::{RunData, Stretch};
use cl_runs::Job;
use cl_text::Text;
use cl_time::NoMemory;
use std::alloc::Global;

/// The most execution times of a job whose line is put at once.
const MOST_AT_ONCE: usize = 6;

/// Writes the trace of a run: a title, the number of ticks, a line for each job, task by task, a
/// line for each longest stretch of a task, core by core, and an end. Times are in ticks. A core
/// that idles has no line.
///
/// `NoMemory` comes where there is no memory for the text; it leaves nothing.
pub fn write_trace(alloc: Global, model: &ValidModel, run: &RunData) -> Result<Text, NoMemory>
    requires { IsInForm (system_of model.now) run.now }
    ensures { IfOk result (λ text. text ≡ spelled model.now run.now) }
{
    let mut text = Text::new(alloc);
    text.put(b"chainlat trace 1\nticks ")?;
    text.put_number(run.table().ticks)?;
    text.put(b"\n")?;
    put_jobs(&mut text, model, run)?;
    put_runs(&mut text, model, run)?;
    text.put(b"end\n")?;
    Ok(text)
}

/// Puts the job lines of all tasks.
fn put_jobs(text: &mut Text, model: &ValidModel, run: &RunData) -> Result<(), NoMemory>
    requires { IsInForm (system_of model.now) run.now }
    ensures { OnOk result (text.new ≡ text.old ++ text_of model.now (job_items run.now)) }
{
    for task in 0..model.tasks() {
        put_task(
            text,
            model,
            task,
            run.table().jobs.as_slice()[task as usize].as_slice(),
        )?;
    }
    Ok(())
}

/// Puts the job lines of a task.
fn put_task(text: &mut Text, model: &ValidModel, task: u32, jobs: &[Job]) -> Result<(), NoMemory>
    requires { task < length model.now.tasks }
    ensures { OnOk result (text.new ≡ text.old ++ text_of model.now (map (JobOf task) jobs.now)) }
{
    let name = name_of(model, task);
    let mut ending = Ending::new();
    for job in jobs {
        put_job(text, &mut ending, name, job)?;
    }
    Ok(())
}

/// Puts the job line of a task with this name. The ending is lent, since making one for each line
/// takes time, and what it holds is lost.
fn put_job(text: &mut Text, ending: &mut Ending, name: &[u8], job: &Job) -> Result<(), NoMemory>
    requires { length name.now ≤ 64 }
    ensures { OnOk result (text.new ≡ text.old ++ line (job_line_words name.now job.now)) }
{
    if job.times.as_slice().len() <= MOST_AT_ONCE {
        put_short_job(text, ending, name, job)
    } else {
        put_long_job(text, name, job)
    }
}

/// Puts the job line of a job with few execution times at once, by the ending that is lent.
fn put_short_job(
    text: &mut Text,
    ending: &mut Ending,
    name: &[u8],
    job: &Job,
) -> Result<(), NoMemory>
    requires name { length name.now ≤ 64 }
    requires few { length job.now.times ≤ 6 }
    ensures { OnOk result (text.new ≡ text.old ++ line (job_line_words name.now job.now)) }
{
    ending.clear();
    ending.put_byte(b'\n');
    line_numbers(ending, job.times.as_slice());
    line_head(ending, name, job);
    text.put(ending.as_slice())
}

/// Puts numbers in front of the text, each after a blank.
fn line_numbers(line: &mut Ending, list: &[u64])
    requires few { length list.now ≤ 6 }
    requires room { length line.old ≤ 1 }
    ensures text { line.new ≡ numbers list.now ++ line.old }
    ensures short { length line.new ≤ 127 }
{
    let mut left = list.len();
    while left > 0 {
        left -= 1;
        line.put_number(list[left]);
        line.put_byte(b' ');
    }
}

/// Puts the words of a job line up to the release in front of the text.
fn line_head(line: &mut Ending, name: &[u8], job: &Job)
    requires name { length name.now ≤ 64 }
    requires room { length line.old ≤ 127 }
    ensures { line.new ≡ (codes "job " ++ (name.now ++ numbers (job.now.arrival ∷ job.now.release ∷ []))) ++ line.old }
{
    line.put_number(job.release);
    line.put_byte(b' ');
    line.put_number(job.arrival);
    line.put_byte(b' ');
    line.put(name);
    line.put(b"job ");
}

/// Puts the job line of a job with many execution times, piece by piece.
fn put_long_job(text: &mut Text, name: &[u8], job: &Job) -> Result<(), NoMemory>
    requires { length name.now ≤ 64 }
    ensures { OnOk result (text.new ≡ text.old ++ line (job_line_words name.now job.now)) }
{
    let mut head = Ending::new();
    line_head(&mut head, name, job);
    text.put(head.as_slice())?;
    put_numbers(text, job.times.as_slice())?;
    text.put_byte(b'\n')
}

/// Puts numbers, each after a blank.
fn put_numbers(text: &mut Text, list: &[u64]) -> Result<(), NoMemory>
    ensures { OnOk result (text.new ≡ text.old ++ numbers list.now) }
{
    for number in list {
        put_number(text, *number)?;
    }
    Ok(())
}

/// Puts a number after a blank.
fn put_number(text: &mut Text, number: u64) -> Result<(), NoMemory>
    ensures { OnOk result (text.new ≡ text.old ++ number_text number) }
{
    let mut word = Ending::new();
    word.put_number(number);
    word.put_byte(b' ');
    text.put(word.as_slice())
}

/// Puts the run lines of all cores.
fn put_runs(text: &mut Text, model: &ValidModel, run: &RunData) -> Result<(), NoMemory>
    requires { IsInForm (system_of model.now) run.now }
    ensures { OnOk result (text.new ≡ text.old ++ text_of model.now (run_items run.now)) }
{
    for core in 0..model.cores() {
        put_core(text, model, run, core)?;
    }
    Ok(())
}

/// Puts the run lines of a core.
fn put_core(text: &mut Text, model: &ValidModel, run: &RunData, core: u32) -> Result<(), NoMemory>
    requires in_form { IsInForm (system_of model.now) run.now }
    requires within { core < length model.now.cores }
    ensures { OnOk result (text.new ≡ text.old ++ text_of model.now (core_items run.now core)) }
{
    put_stretches(text, model, run.stretches(core))
}

/// Puts the run lines of stretches, of which the first begins at tick 0.
fn put_stretches(text: &mut Text, model: &ValidModel, stretches: &[Stretch]) -> Result<(), NoMemory>
    requires { All (IsOfTask model.now) stretches.now }
    ensures { OnOk result
        (text.new ≡ text.old ++ text_of model.now (stretch_items 0 stretches.now)) }
{
    let mut ending = Ending::new();
    let mut from = 0;
    for stretch in stretches {
        put_stretch(text, &mut ending, model, from, stretch)?;
        from = stretch.end;
    }
    Ok(())
}

/// Puts a stretch that begins at a tick: a run line where a task runs, by the ending that is lent,
/// and nothing where the core idles.
fn put_stretch(
    text: &mut Text,
    ending: &mut Ending,
    model: &ValidModel,
    from: u64,
    stretch: &Stretch,
) -> Result<(), NoMemory>
    requires { IsOfTask model.now stretch.now }
    ensures { OnOk result
        (text.new ≡ text.old ++ text_of model.now (stretch_item stretch.now.who from stretch.now.end)) }
{
    match stretch.who {
        None => Ok(()),
        Some(task) => put_run(text, ending, name_of(model, task), from, stretch.end),
    }
}

/// Puts the run line of a task with this name from one tick to another, by the ending that is lent.
fn put_run(
    text: &mut Text,
    ending: &mut Ending,
    name: &[u8],
    from: u64,
    to: u64,
) -> Result<(), NoMemory>
    requires { length name.now ≤ 64 }
    ensures { OnOk result (text.new ≡ text.old ++ line (run_words name.now from to)) }
{
    ending.clear();
    ending.put_byte(b'\n');
    ending.put_number(to);
    ending.put_byte(b' ');
    ending.put_number(from);
    ending.put_byte(b' ');
    ending.put(name);
    ending.put(b"run ");
    text.put(ending.as_slice())
}

/// Returns the name of a task.
fn name_of(model: &ValidModel, task: u32) -> &[u8]
    requires { task < length model.now.tasks }
    ensures name { result.now ≡ (task_at model.now task).name }
    ensures short { length result.now ≤ 64 }
{
    model.task(task).name.as_slice()
}
