//! What is said of the first rule that a run breaks. Times are in ticks.
ghost use Rattle.std.specs.Prelude.{◌≡◌, ◌<◌, ◌++◌, length, OnOk};
ghost use Rattle.cl_model.specs.ByNumber.{task_at};
ghost use Rattle.cl_runs.specs.{Run.IsInForm, SystemOf.system_of};
ghost use Rattle.cl_check.specs.{declared.run_fault.RunFault.TheVariants.Illegal, Legality.IsFirstBroken};
ghost use Rattle.cl_traces.specs.SaidOfRules.{missing_text, said_of_arrival, said_of_release, said_of_time, TellsOfRule};

use crate::arrivals::put_arrival;
use crate::releases::put_release;
use crate::schedule::put_schedule;
use crate::times::put_time;
use cl_check::Rule;
use cl_model::ValidModel;
use cl_run_data::RunData;
use cl_text::Text;
use cl_time::NoMemory;
use std::alloc::Global;

/// Appends what is said of the first job of a task that arrives when it may not.
fn put_arrival_of(
    text: &mut Text,
    model: &ValidModel,
    run: &RunData,
    task: u32,
) -> Result<(), NoMemory>
    requires task { task < length model.now.tasks }
    requires jobs { task < length run.now.table.jobs }
    ensures { OnOk result (text.new ≡ text.old ++ said_of_arrival model.now run.now task) }
{
    let name = model.task(task).name.as_slice();
    let kind = model.stimulus_of(task);
    let table = run.table();
    put_arrival(text, name, kind, table.ticks, table.jobs_of(task))?;
    Ok(())
}

/// Appends what is said of the first job of a task that is released when it may not be.
fn put_release_of(
    text: &mut Text,
    model: &ValidModel,
    run: &RunData,
    task: u32,
) -> Result<(), NoMemory>
    requires task { task < length model.now.tasks }
    requires jobs { task < length run.now.table.jobs }
    ensures { OnOk result (text.new ≡ text.old ++ said_of_release model.now run.now task) }
{
    put_release(text, model.stimulus_of(task), run.table().jobs_of(task))?;
    Ok(())
}

/// Appends what is said of the first job of a task that has a time out of its range.
fn put_time_of(
    text: &mut Text,
    model: &ValidModel,
    run: &RunData,
    task: u32,
) -> Result<(), NoMemory>
    requires task { task < length model.now.tasks }
    requires jobs { task < length run.now.table.jobs }
    ensures { OnOk result (text.new ≡ text.old ++ said_of_time model.now run.now task) }
{
    let runnables = model.task(task).runnables.as_slice();
    put_time(text, runnables, run.table().jobs_of(task))?;
    Ok(())
}

/// Appends what is said of a task that has no job up to the latest tick at which one is due.
fn put_missing(text: &mut Text, model: &ValidModel, task: u32, tick: u64) -> Result<(), NoMemory>
    requires { task < length model.now.tasks }
    ensures { OnOk result (text.new ≡ text.old ++ missing_text (task_at model.now task).name tick) }
{
    text.put(b"wanted a job of ")?;
    text.put(model.task(task).name.as_slice())?;
    text.put(b" at ")?;
    text.put_number(tick)?;
    text.put(b"\n")?;
    Ok(())
}

/// Appends what is said of the first rule that a run breaks, as `check_run` of `cl_check` finds it:
/// what the run has there, in a line `found`, and what is wanted there, in a line `wanted`. `place`
/// is the number of the core for `Rule::Schedule`, and that of the task for each other rule; `tick`
/// is that of the fault.
///
/// - `Arrival`: the arrival of the job, and the ticks at which it may arrive, within those of the
///   run; where all these lie past the end of the run, that no further job may.
/// - `Release`: the release of the job, and the ticks at which it may be released.
/// - `Time`: the first execution time of the job that isn't in the range of its runnable, and this.
/// - `Missing`: the latest tick at which the missing job is due, in a line `wanted` alone.
/// - `Schedule`: what the core does at the tick, and what it does there in the legal run of the same
///   job table.
///
/// Fails with `NoMemory` where there is no memory for the text, or for that legal run. Then the
/// text ends with a prefix of what is said, possibly empty.
pub fn put_broken_rule(
    text: &mut Text,
    alloc: Global,
    model: &ValidModel,
    run: &RunData,
    rule: Rule,
    place: u32,
    tick: u64,
) -> Result<(), NoMemory>
    requires in_form { IsInForm (system_of model.now) run.now }
    requires broken { IsFirstBroken (system_of model.now) run.now (Illegal rule place tick) }
    ensures { OnOk result (TellsOfRule model.now run.now rule place tick text.old text.new) }
{
    match rule {
        Rule::Arrival => put_arrival_of(text, model, run, place),
        Rule::Release => put_release_of(text, model, run, place),
        Rule::Time => put_time_of(text, model, run, place),
        Rule::Missing => put_missing(text, model, place, tick),
        Rule::Schedule => put_schedule(text, alloc, model, run, place, tick),
    }
}
