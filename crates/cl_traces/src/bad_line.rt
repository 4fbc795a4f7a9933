//! What is said of a line of a trace that can't be read, or of one that is missing.
ghost use Rattle.std.specs.Prelude.{◌≡◌, ◌<◌, ◌++◌, length, codes, decimal, IfSome, OnOk};
ghost use Rattle.cl_text.specs.Line.{line};
ghost use Rattle.cl_model.specs.ByNumber.{task_at, core_of};
ghost use Rattle.cl_advice.specs.Shown.{quoted};
ghost use Rattle.cl_traces.specs.BadTraceLines.{least_task, task_from, job_shape, wanted_job_of, wanted_job, ticks_of_trace, core_from, other_task, wanted_below, wanted_behind, wanted_run, wanted_by_word, wanted_in_trace, bad_trace_text};

use crate::lines::{is, is_at_end, line_word, printed_number, trace_line};
use crate::run_line::{RunLine, run_line_at, task_named};
use cl_advice::put_quoted;
use cl_model::{CoreDef, TaskDef, ValidModel};
use cl_text::Text;
use cl_time::NoMemory;

/// Returns the number of the task whose jobs may come next below a line.
fn least_task(model: &ValidModel, above: &[u8]) -> u32
    ensures { result ≡ least_task model.now above.now }
{
    if is(line_word(above, 0), "job") {
        task_named(model, line_word(above, 1)).unwrap_or(0)
    } else {
        0
    }
}

/// Returns the name of the task of a number, empty past the last one.
fn task_name(model: &ValidModel, task: u32) -> &[u8]
    ensures { result.now ≡ (task_at model.now task).name }
{
    match model.plain().tasks.at(task as usize) {
        Some(task) => task.name.as_slice(),
        None => b"",
    }
}

/// Appends that a task is wanted, this or a later one.
fn put_task_from(text: &mut Text, model: &ValidModel, least: u32) -> Result<(), NoMemory>
    ensures { OnOk result (text.new ≡ text.old ++ task_from model.now least) }
{
    text.put(b"a task from ")?;
    text.put(task_name(model, least))?;
    text.put(b" on")?;
    Ok(())
}

/// Appends the shape of the job lines of a task.
fn put_job_shape(text: &mut Text, task: &TaskDef) -> Result<(), NoMemory>
    ensures { OnOk result (text.new ≡ text.old ++ job_shape task.now) }
{
    text.put(b"job ")?;
    text.put(task.name.as_slice())?;
    text.put(b" ARRIVAL RELEASE and ")?;
    text.put_number(task.runnables.len() as u64)?;
    text.put(b" times")?;
    Ok(())
}

/// Appends what is wanted in place of the job line of a task, where jobs of another and of later
/// ones may stand.
fn put_job_of(
    text: &mut Text,
    model: &ValidModel,
    least: u32,
    task: Option<u32>,
) -> Result<(), NoMemory>
    requires { IfSome task (λ task. task < length model.now.tasks) }
    ensures { OnOk result (text.new ≡ text.old ++ wanted_job_of model.now least task) }
{
    match task {
        None => put_task_from(text, model, least),
        Some(task) => {
            if task < least {
                put_task_from(text, model, least)
            } else {
                put_job_shape(text, model.task(task))
            }
        }
    }
}

/// Appends what is wanted in place of a job line below a line.
fn put_wanted_job(
    text: &mut Text,
    model: &ValidModel,
    above: &[u8],
    line: &[u8],
) -> Result<(), NoMemory>
    ensures { OnOk result (text.new ≡ text.old ++ wanted_job model.now above.now line.now) }
{
    if is(line_word(above, 0), "run") {
        text.put(b"no job line behind a run line")
    } else {
        put_job_of(
            text,
            model,
            least_task(model, above),
            task_named(model, line_word(line, 1)),
        )
    }
}

/// Returns the ticks of the trace, as its line 2 says.
fn ticks_of(trace: &[u8]) -> u64
    ensures { result ≡ ticks_of_trace trace.now }
{
    printed_number(line_word(trace_line(trace, 2), 1)).unwrap_or(0)
}

/// Appends that a core is wanted, this or a later one.
fn put_core_from(text: &mut Text, core: &CoreDef) -> Result<(), NoMemory>
    ensures { OnOk result (text.new ≡ text.old ++ core_from core.now) }
{
    text.put(b"a core from ")?;
    text.put(core.name.as_slice())?;
    text.put(b" on")?;
    Ok(())
}

/// Appends that another task is wanted where one ends.
fn put_other_task(text: &mut Text, task: &TaskDef, end: u64) -> Result<(), NoMemory>
    ensures { OnOk result (text.new ≡ text.old ++ other_task task.now end) }
{
    text.put(b"another task than ")?;
    text.put(task.name.as_slice())?;
    text.put(b" at ")?;
    text.put_number(end)?;
    Ok(())
}

/// Appends what is wanted in place of a run line below another.
fn put_below(
    text: &mut Text,
    model: &ValidModel,
    above: RunLine,
    run: RunLine,
) -> Result<(), NoMemory>
    requires above { above.task < length model.now.tasks }
    requires run { run.task < length model.now.tasks }
    ensures { OnOk result (text.new ≡ text.old ++ wanted_below model.now above run) }
{
    let core = model.core_of(run.task);
    let core_above = model.core_of(above.task);
    if core < core_above {
        put_core_from(text, model.core(core_above))
    } else if core == core_above && run.from < above.to {
        put_numbered(text, b"FROM at least ", above.to)
    } else {
        put_other_task(text, model.task(above.task), above.to)
    }
}

/// Appends words and a number.
fn put_numbered(text: &mut Text, words: &[u8], number: u64) -> Result<(), NoMemory>
    ensures { OnOk result (text.new ≡ text.old ++ (words.now ++ decimal number)) }
{
    text.put(words)?;
    text.put_number(number)?;
    Ok(())
}

/// Appends what is wanted in place of a run line in time, below a line that may be one.
fn put_behind(
    text: &mut Text,
    model: &ValidModel,
    above: Option<RunLine>,
    run: RunLine,
) -> Result<(), NoMemory>
    requires above { IfSome above (λ above. above.task < length model.now.tasks) }
    requires run { run.task < length model.now.tasks }
    ensures { OnOk result (text.new ≡ text.old ++ wanted_behind model.now above run) }
{
    match above {
        None => text.put(b"job, run or end"),
        Some(above) => put_below(text, model, above, run),
    }
}

/// Appends what is wanted in place of a line that begins as run lines do.
fn put_wanted_run(
    text: &mut Text,
    model: &ValidModel,
    ticks: u64,
    above: Option<RunLine>,
    run: Option<RunLine>,
) -> Result<(), NoMemory>
    requires above { IfSome above (λ above. above.task < length model.now.tasks) }
    requires run { IfSome run (λ run. run.task < length model.now.tasks) }
    ensures { OnOk result (text.new ≡ text.old ++ wanted_run model.now ticks above run) }
{
    match run {
        None => text.put(b"run TASK FROM TO"),
        Some(run) => {
            if ticks < run.to {
                put_numbered(text, b"TO at most ", ticks)
            } else {
                put_behind(text, model, above, run)
            }
        }
    }
}

/// Appends what is wanted in place of a line below the first two, by its first word.
fn put_by_word(
    text: &mut Text,
    model: &ValidModel,
    trace: &[u8],
    number: usize,
) -> Result<(), NoMemory>
    ensures { OnOk result (text.new ≡ text.old ++ wanted_by_word model.now trace.now number) }
{
    let line = trace_line(trace, number);
    let above = number.saturating_sub(1);
    let word = line_word(line, 0);
    if is(word, "job") {
        put_wanted_job(text, model, trace_line(trace, above), line)
    } else if is(word, "run") {
        put_wanted_run(
            text,
            model,
            ticks_of(trace),
            run_line_at(model, trace, above),
            run_line_at(model, trace, number),
        )
    } else {
        text.put(b"job, run or end")
    }
}

/// Appends what is wanted in place of a line.
fn put_wanted(
    text: &mut Text,
    model: &ValidModel,
    trace: &[u8],
    number: usize,
) -> Result<(), NoMemory>
    ensures { OnOk result (text.new ≡ text.old ++ wanted_in_trace model.now trace.now number) }
{
    if number == 1 {
        text.put(b"chainlat trace 1")
    } else if number == 2 {
        text.put(b"ticks N, N at most 1000000000")
    } else if is(trace_line(trace, number.saturating_sub(1)), "end") {
        text.put(b"nothing behind end")
    } else if is_at_end(trace, number) {
        text.put(b"end")
    } else {
        put_by_word(text, model, trace, number)
    }
}

/// Appends the line of what was found.
fn put_found(text: &mut Text, found: &[u8]) -> Result<(), NoMemory>
    ensures { OnOk result (text.new ≡ text.old ++ line (codes "found " ++ quoted found.now)) }
{
    text.put(b"found ")?;
    put_quoted(text, found)?;
    text.put(b"\n")?;
    Ok(())
}

/// Appends what is said of the line of this number, counted from 1, of a trace of which it is the
/// first bad line: what stands there, in quotes and at most 64 bytes, and what is wanted in its place.
/// Where the trace ends before its last line, the line is empty.
///
/// Fails with `NoMemory` where there is no memory for the text. Then the text ends with a prefix of
/// what is said, possibly empty.
pub fn put_bad_trace_line(
    text: &mut Text,
    model: &ValidModel,
    trace: &[u8],
    number: usize,
) -> Result<(), NoMemory>
    ensures { OnOk result (text.new ≡ text.old ++ bad_trace_text model.now trace.now number) }
{
    put_found(text, trace_line(trace, number))?;
    text.put(b"wanted ")?;
    put_wanted(text, model, trace, number)?;
    text.put(b"\n")?;
    Ok(())
}
