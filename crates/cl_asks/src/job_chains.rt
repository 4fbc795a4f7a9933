//! Questions on the job chains of a legal run, and on when its jobs start and finish. Times are in
//! ticks.
ghost use Rattle.std.specs.Prelude.{◌<◌, length};
ghost use Rattle.cl_runs.specs.{SystemOf.system_of, Legal.IsLegal};

use crate::words::{
    chain_at, no_such_number, number_at, put_number, put_numbers, said, task_at, word,
};
use cl_chain::{JobChain, Measured, backward, forward, measure, measure_delay};
use cl_check::{Moment, moments};
use cl_io::Words;
use cl_model::ValidModel;
use cl_run_data::RunData;
use cl_text::Text;
use cl_time::NoMemory;
use std::alloc::Global;

/// Answers a question on a legal run.
pub(crate) fn of_legal(
    alloc: Global,
    words: &Words,
    model: &ValidModel,
    run: &RunData,
) -> Result<Text, NoMemory>
    requires { IsLegal (system_of model.now) run.now }
{
    match word(words, 1) {
        "moments" => of_task(alloc, words, model, run),
        "check" => said(alloc, "legal"),
        _ => of_some_chain(alloc, words, model, run),
    }
}

/// Answers a question on the job chains of one chain of the model.
fn of_some_chain(
    alloc: Global,
    words: &Words,
    model: &ValidModel,
    run: &RunData,
) -> Result<Text, NoMemory>
    requires { IsLegal (system_of model.now) run.now }
{
    match chain_at(words, 4, model) {
        Some(chain) => of_chain(alloc, words, model, run, chain),
        None => no_such_number(alloc),
    }
}

/// Answers `measure MODEL TRACE CHAIN`: what is measured of the chain; or `delay MODEL TRACE CHAIN`:
/// the chain of its greatest delay. Every other question is on the job chain of one job.
fn of_chain(
    alloc: Global,
    words: &Words,
    model: &ValidModel,
    run: &RunData,
    chain: u32,
) -> Result<Text, NoMemory>
    requires is_chain { chain < length model.now.chains }
    requires legal { IsLegal (system_of model.now) run.now }
{
    // So that it is known that the model is valid.
    let _valid = model.plain();
    match word(words, 1) {
        "measure" => measured(alloc, &measure(alloc, model, run, chain)?),
        "delay" => one_chain(alloc, &measure_delay(alloc, model, run, chain)?),
        _ => of_some_job(alloc, words, model, run, chain),
    }
}

fn of_some_job(
    alloc: Global,
    words: &Words,
    model: &ValidModel,
    run: &RunData,
    chain: u32,
) -> Result<Text, NoMemory>
    requires is_chain { chain < length model.now.chains }
    requires legal { IsLegal (system_of model.now) run.now }
{
    match number_at(words, 5) {
        Some(job) => of_job(alloc, words, model, run, chain, job),
        None => no_such_number(alloc),
    }
}

/// Answers `forward MODEL TRACE CHAIN JOB`: the complete forward chain of a first job;
/// or `backward MODEL TRACE CHAIN JOB`: the complete backward chain of a last job.
fn of_job(
    alloc: Global,
    words: &Words,
    model: &ValidModel,
    run: &RunData,
    chain: u32,
    job: u64,
) -> Result<Text, NoMemory>
    requires is_chain { chain < length model.now.chains }
    requires legal { IsLegal (system_of model.now) run.now }
{
    // So that it is known that the model is valid.
    let _valid = model.plain();
    match word(words, 1) {
        "forward" => one_chain(alloc, &forward(alloc, model, run, chain, job)?),
        _ => one_chain(alloc, &backward(alloc, model, run, chain, job)?),
    }
}

fn one_chain(alloc: Global, chain: &Option<JobChain>) -> Result<Text, NoMemory> {
    let mut text = Text::new(alloc);
    put_chain(&mut text, chain)?;
    Ok(text)
}

/// Writes the longest chain of each kind, a line each, and then how many complete forward and
/// backward chains there are.
fn measured(alloc: Global, measured: &Measured) -> Result<Text, NoMemory> {
    let mut text = Text::new(alloc);
    put_chain(&mut text, &measured.reaction)?;
    put_chain(&mut text, &measured.age)?;
    put_chain(&mut text, &measured.reduced)?;
    put_number(&mut text, b"", measured.forward)?;
    put_number(&mut text, b" ", measured.backward)?;
    text.put(b"\n")?;
    Ok(text)
}

/// Puts the moments from which and to which a job chain lasts and its jobs, or `none`, on a line.
fn put_chain(text: &mut Text, chain: &Option<JobChain>) -> Result<(), NoMemory> {
    let Some(chain) = chain else {
        return text.put(b"none\n");
    };
    put_number(text, b"", chain.from)?;
    put_number(text, b" ", chain.to)?;
    text.put(b":")?;
    put_numbers(text, chain.jobs.as_slice())?;
    text.put(b"\n")
}

/// Answers `moments MODEL TRACE TASK`: when the first runnable of a task starts and finishes, a
/// line for each of its jobs.
fn of_task(
    alloc: Global,
    words: &Words,
    model: &ValidModel,
    run: &RunData,
) -> Result<Text, NoMemory>
    requires { IsLegal (system_of model.now) run.now }
{
    match task_at(words, 4, model) {
        Some(task) => first_runnable(alloc, model, run, task),
        None => no_such_number(alloc),
    }
}

fn first_runnable(
    alloc: Global,
    model: &ValidModel,
    run: &RunData,
    task: u32,
) -> Result<Text, NoMemory>
    requires is_task { task < length model.now.tasks }
    requires legal { IsLegal (system_of model.now) run.now }
{
    if model.task(task).runnables.is_empty() {
        return no_such_number(alloc);
    }
    spelled(alloc, moments(alloc, model, run, task, 0)?.as_slice())
}

fn spelled(alloc: Global, moments: &[Moment]) -> Result<Text, NoMemory> {
    let mut text = Text::new(alloc);
    for moment in moments {
        put_moment(&mut text, *moment)?;
    }
    Ok(text)
}

fn put_moment(text: &mut Text, moment: Moment) -> Result<(), NoMemory> {
    put_time(text, moment.start)?;
    text.put(b" ")?;
    put_time(text, moment.finish)?;
    text.put(b"\n")
}

fn put_time(text: &mut Text, time: Option<u64>) -> Result<(), NoMemory> {
    match time {
        Some(time) => text.put_number(time),
        None => text.put(b"none"),
    }
}
